//! Lines that bring a guest's commands, each answered with what a hypervisor sends to the host's queue for it.
#![tactic(auto)]

mod answer;
mod asked;
mod entries;
mod fault;
mod guest;
mod host_commands;
mod line;
mod lines;
mod number;
mod stream;

pub use asked::Asked;
pub use fault::GuestFault;
pub use lines::convert_with_notes;
