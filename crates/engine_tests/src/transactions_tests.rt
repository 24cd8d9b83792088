//! Tests of walks and transactions beside a command queue.
mod overtaken_tests;
mod queue_tests;
mod told_tests;
