//! The log of a device model, judged line by line: walks, fills, accesses and commands.
#![tactic(auto)]

mod access;
mod answering;
mod commands;
mod log_fault;
mod parsing;
mod reply;
mod request;
mod serving;
mod state;
mod telling;
mod walking;

pub use serving::trace;
