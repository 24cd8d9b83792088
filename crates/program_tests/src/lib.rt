//! Tests of the program for what no run of it shows: readers, writers and allocations that fail, what is flushed, and
//! the callers that READMEs show; and of stress. tests/program.cases and its neighbours have the runs. They are in a crate of
//! their own, since building a crate's tests proves the crate again.
#![tactic(auto)]

#[cfg(test)]
mod command_line_caller;
#[cfg(test)]
mod command_line_tests;
#[cfg(test)]
mod decode_caller;
#[cfg(test)]
mod decoding_tests;
#[cfg(test)]
mod program_caller;
#[cfg(test)]
mod running;
#[cfg(test)]
mod stress_tests;
#[cfg(test)]
mod stressing_tests;
#[cfg(test)]
mod telling_tests;
