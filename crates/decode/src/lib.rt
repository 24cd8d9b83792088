//! What a word of hexadecimal digits means as a command, and what its two words do.
#![tactic(auto)]

mod decode;
mod saying;

pub use decode::{decode_bytes, decode_text};
pub use saying::say_command;
