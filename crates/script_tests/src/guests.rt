//! Tests of a guest's commands in lines.
mod asking;
mod convert_caller;
mod guest_tests;
mod stream_tests;
