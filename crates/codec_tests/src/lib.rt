//! Tests of cmdcodec, qindex, batch and range_hints, in a crate of their own, since building a crate's tests proves the crate
//! again. Most are texts of calls and their answers (`answers`), since a text costs the prover little.
#![tactic(auto)]

#[cfg(test)]
mod answers;
#[cfg(test)]
mod batch_caller;
#[cfg(test)]
mod batch_tests;
#[cfg(test)]
mod cmdcodec_caller;
#[cfg(test)]
mod cmdcodec_tests;
#[cfg(test)]
mod numbers;
#[cfg(test)]
mod qindex_caller;
#[cfg(test)]
mod qindex_tests;
#[cfg(test)]
mod range_hints_tests;
