//! Tests of script, of schedule, which script serves, of explanations, of replay and of the subcommands that read lines, for
//! what no run of the program shows; tests/*.cases have the runs. They are in a crate of their own, since building a crate's
//! tests proves the crate again. Helpers hold what several tests share, since the prover takes long over each loop and each
//! comparison.
#![tactic(auto)]

#[cfg(test)]
mod address_ranges;
#[cfg(test)]
mod command_texts;
#[cfg(test)]
mod explained_lines;
#[cfg(test)]
mod explanations_caller;
#[cfg(test)]
mod guests;
#[cfg(test)]
mod hex_dumps;
#[cfg(test)]
mod images;
#[cfg(test)]
mod long_lines;
#[cfg(test)]
mod replay_tests;
#[cfg(test)]
mod schedule_caller;
#[cfg(test)]
mod schedule_tests;
#[cfg(test)]
mod script_caller;
#[cfg(test)]
mod script_tests;
#[cfg(test)]
mod served;
#[cfg(test)]
mod traces;
