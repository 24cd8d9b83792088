//! A word that isn't as expected.
use crate::expected::Expected;
use std::fmt;

/// A word of a line that isn't as expected.
#[derive(Clone, Copy)]
pub(crate) struct Misread<'a> {
    /// Which word of the line, counted from 1.
    pub word: u64,
    /// What it has to be.
    pub expected: Expected,
    /// What is there, empty after the line's last word.
    pub found: &'a [u8],
}

impl fmt::Display for Misread<'_> {
    fn fmt<W: fmt::Write>(&self, f: &mut fmt::Formatter<W>) -> fmt::Result {
        write!(
            f,
            "word {}: {} was expected, found ",
            self.word, self.expected
        )?;
        if self.found.is_empty() {
            f.write_str("the end of the line")
        } else {
            write!(f, "\"{}\"", self.found.escape_ascii())
        }
    }
}
