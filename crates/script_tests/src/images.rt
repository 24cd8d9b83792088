//! Tests of image.
mod answered;
mod dump_tests;
mod hint_tests;
mod image_caller;
mod image_tests;
mod size_tests;
