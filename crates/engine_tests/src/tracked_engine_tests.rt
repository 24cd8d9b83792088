//! Tests of the tracked engine.
mod calls;
mod run_tests;
mod stop_tests;
mod thread_tests;
mod waiting_tests;
