//! Reads a line of a hex dump of a command queue.
#![tactic(auto)]

mod address;
mod data;
mod digits;
mod dumped;
mod layout;
mod line;

pub use dumped::{DumpLine, Dumped};
pub use line::dump_line;
