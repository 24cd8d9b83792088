//! Tests of the running ring, of ringcore (`ringcore_tests`) and of progress, in a crate of their own, since building a
//! crate's tests proves the crate again.
#![tactic(auto)]

#[cfg(test)]
mod batches;
#[cfg(test)]
mod calls;
#[cfg(test)]
mod consumer_calls;
#[cfg(test)]
mod consumer_tests;
#[cfg(test)]
mod device;
#[cfg(test)]
mod held_tests;
#[cfg(test)]
mod keeper_calls;
#[cfg(test)]
mod keeper_tests;
#[cfg(test)]
mod reserving;
#[cfg(test)]
mod ring_caller;
#[cfg(test)]
mod ringcore_caller;
#[cfg(test)]
mod ringcore_tests;
#[cfg(test)]
mod run_tests;
#[cfg(test)]
mod runs;
#[cfg(test)]
mod sender_calls;
#[cfg(test)]
mod sender_tests;
#[cfg(test)]
mod steps;
#[cfg(test)]
mod thread_tests;
#[cfg(test)]
mod unbound_tests;
