//! Tests of hex_dump.
mod line_tests;
