//! Tests of the stress run.
mod at_once_tests;
mod gate_tests;
mod plan_tests;
mod report_tests;
mod stress_caller;
mod turns_tests;
