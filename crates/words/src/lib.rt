//! Decodes commands as they are printed elsewhere: a line for each, in a kernel's log, or in a hex dump.
#![tactic(auto)]

mod answering;
mod dump;
mod dump_answering;
mod fault;
mod line;
mod log;
mod log_answering;
mod log_line;
mod serving;

pub use dump::hex_dump_with_notes;
pub use line::hex_number;
pub use log::log_with_notes;
pub use serving::{words, words_with_notes};
