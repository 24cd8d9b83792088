//! The line that ended the run of a script.
ghost use Rattle.std.specs.Prelude.{◌≡◌, IfOk};

use std::alloc::{AllocError, Global};

/// How many of an answer's last bytes are kept.
const KEPT_OF_ANSWER: usize = 64;

/// The line that ended the run of a script, verbatim.
#[derive(Debug, Drop)]
pub struct LastLine {
    /// Its number, counted from 1.
    pub number: u64,
    /// Its bytes without its end; empty if there are more than 4,096.
    pub text: Vec<u8>,
    /// The last bytes of its answer, at most 64.
    pub answer: Vec<u8>,
}

impl LastLine {
    /// Copies a line and the end of its answer.
    pub(crate) fn new(
        alloc: Global,
        number: u64,
        text: &[u8],
        answer: &[u8],
    ) -> Result<LastLine, AllocError>
        ensures number { IfOk result (λ last. last.number ≡ number) }
        ensures text { IfOk result (λ last. last.text.items ≡ text.now) }
    {
        let from = answer.len().saturating_sub(KEPT_OF_ANSWER);
        Ok(LastLine {
            number,
            text: Vec::from_slice(alloc, text)?,
            answer: Vec::from_slice(alloc, &answer[from..])?,
        })
    }
}
