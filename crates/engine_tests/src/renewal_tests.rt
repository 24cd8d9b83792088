//! Tests of renewals. Most are texts of calls and their answers (`calls`), since a text costs the prover little.
mod answers;
mod calls;
mod memory_tests;
mod pairs;
mod refusal_tests;
mod worked_tests;
