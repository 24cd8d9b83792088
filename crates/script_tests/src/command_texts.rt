//! Tests of encode and of words.
mod answered;
mod dump_tests;
mod encode_caller;
mod log_tests;
mod stream_tests;
mod words_caller;
mod words_tests;
