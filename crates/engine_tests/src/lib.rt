//! Tests of the engine, with modules of tests of caches, of walks and transactions, of the tracked engine and of renewals, in
//! a crate of their own, since building a crate's tests proves the crate again.
#![tactic(auto)]

#[cfg(test)]
mod caches_tests;
#[cfg(test)]
mod calls;
#[cfg(test)]
mod commands;
#[cfg(test)]
mod completion_tests;
#[cfg(test)]
mod engine_caller;
#[cfg(test)]
mod first_hour;
#[cfg(test)]
mod queue_unit_tests;
#[cfg(test)]
mod renewal_tests;
#[cfg(test)]
mod row_tests;
#[cfg(test)]
mod thread_tests;
#[cfg(test)]
mod told;
#[cfg(test)]
mod tracked_engine_tests;
#[cfg(test)]
mod transactions_tests;
#[cfg(test)]
mod truly_tests;
#[cfg(test)]
mod two_senders;
#[cfg(test)]
mod unit_tests;
