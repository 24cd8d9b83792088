//! Tests of range_hints.
mod forwarding;
mod hints;
mod real_words;
mod reserved_bits;
