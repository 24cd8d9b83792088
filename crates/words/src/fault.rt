//! Why a line brings no command.
use crate::line::hex_number;
use line_answers::next_word;
use thiserror::Error;

/// Why a line is a `bad line`: which word is at fault, counted from 1.
#[derive(Clone, Copy, Debug, PartialEq, Eq, Error)]
pub(crate) enum LineFault<'a> {
    /// A word of two that is no half of a command.
    #[error("word {}: 0x and 1 to 16 hexadecimal digits were expected, found \"{}\"", .0, .1.escape_ascii())]
    NoHalf(u32, &'a [u8]),
    /// A third word.
    #[error("word 3: nothing more was expected, found \"{}\"", .0.escape_ascii())]
    TooMany(&'a [u8]),
}

/// Returns why a line of two words or more is a `bad line`, if it is one. For a single word the answer says what is
/// bad.
pub(crate) fn fault_of(line: &[u8]) -> Option<LineFault<'_>> {
    let (lo, rest) = next_word(line)?;
    let (hi, rest) = next_word(rest)?;
    if let Some((word, _)) = next_word(rest) {
        Some(LineFault::TooMany(word))
    } else if hex_number(lo).is_none() {
        Some(LineFault::NoHalf(1, lo))
    } else if hex_number(hi).is_none() {
        Some(LineFault::NoHalf(2, hi))
    } else {
        None
    }
}
