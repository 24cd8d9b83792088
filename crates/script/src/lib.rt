//! Scripts of lines: read from any reader, served line by line, and answered to any writer.
#![tactic(auto)]

mod ending;
mod error;
mod fields;
mod first;
mod interpreter;
mod kind;
mod last_line;
mod pending;
mod run;
mod sending;
mod serving;
mod session;
mod status;
mod telling;
mod words;

pub use ending::Ending;
pub use error::ServeError;
pub use fields::{
    is_comment, is_end, is_text, next_below, next_below_or, next_u8, next_u32, next_u64,
    one_number, raw,
};
pub use first::First;
pub use interpreter::{Interpreter, LONG_LINE_MEANS, LONGEST_LINE};
pub use kind::ScriptKind;
pub use last_line::LastLine;
pub use pending::read_once;
pub use sending::{tell_of_memory, write_whole};
pub use serving::serve;
pub use session::{parse, serve_script, serve_to_last_line};
pub use status::{Status, status_of};
pub use telling::{say_fault, say_ring};
pub use words::{hex_number, is_hex, next_word, number};
