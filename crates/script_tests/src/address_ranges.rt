//! Tests of ranges.
mod range_caller;
mod range_tests;
