//! Tests of what a hypervisor does for its guests: their commands, the table of guests, forwarding, and detachment.
#![tactic(auto)]

#[cfg(test)]
mod detachment_tests;
#[cfg(test)]
mod guest_commands_tests;
#[cfg(test)]
mod guest_forwarding_tests;
#[cfg(test)]
mod guest_table_tests;
