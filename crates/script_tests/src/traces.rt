//! Tests of trace.
mod answered;
mod stream_tests;
mod trace_caller;
