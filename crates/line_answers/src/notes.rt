//! Notes on lines that aren't good.
use crate::kind::AnswersLines;
use script::LONG_LINE_MEANS;
use std::alloc::{AllocError, Global};

/// How many bytes of notes are kept, not counting the last note.
const MOST: usize = 65_536;

/// Notes on lines that aren't good, a line for each with its number, in the order in which they came. Of very many
/// notes the first 65,536 bytes are kept (this project's choice).
#[derive(Drop)]
pub struct Notes {
    text: String,
    left_out: u64,
}

impl Notes {
    /// Returns no notes.
    pub fn new(alloc: Global) -> Notes {
        Notes {
            text: String::new(alloc),
            left_out: 0,
        }
    }

    /// Returns all that is kept, each line with its end.
    pub fn text(&self) -> &str {
        self.text.as_str()
    }

    /// Returns how many lines have no note, for lack of room or memory.
    pub fn left_out(&self) -> u64 {
        self.left_out
    }

    /// Notes what its kind says of a line that isn't good.
    pub(crate) fn add<K: AnswersLines>(
        &mut self,
        alloc: Global,
        kind: &K,
        number: u64,
        line: &[u8],
    ) {
        if self.is_full() || self.push_fault(alloc, kind, number, line).is_err() {
            self.leave_out();
        }
    }

    /// Notes why the line of this number isn't good.
    pub fn note(&mut self, alloc: Global, number: u64, why: &str) {
        if self.is_full() || self.push_note(alloc, number, why).is_err() {
            self.leave_out();
        }
    }

    /// Notes that the line of this number is too long.
    pub fn note_long_line(&mut self, alloc: Global, number: u64) {
        self.note(alloc, number, LONG_LINE_MEANS);
    }

    fn is_full(&self) -> bool {
        self.text.len() >= MOST
    }

    fn leave_out(&mut self) {
        self.left_out = self.left_out.saturating_add(1);
    }

    fn push_fault<K: AnswersLines>(
        &mut self,
        alloc: Global,
        kind: &K,
        number: u64,
        line: &[u8],
    ) -> Result<(), AllocError> {
        let mut why = String::new(alloc);
        kind.say_fault(line, &mut why)?;
        if why.is_empty() {
            return Ok(());
        }
        self.push_note(alloc, number, why.as_str())
    }

    fn push_note(&mut self, alloc: Global, number: u64, why: &str) -> Result<(), AllocError> {
        let note = format!(in alloc; "line {number}: {why}\n")?;
        self.text.push_str(note.as_str())
    }
}
