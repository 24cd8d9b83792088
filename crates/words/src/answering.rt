//! Lines that bring commands, as a kind of lines.
use crate::fault::fault_of;
use crate::line::say_line;
use line_answers::AnswersLines;
use std::alloc::{AllocError, Global};
use std::fmt::Write;

/// Answers lines that bring a command each.
#[derive(Drop)]
pub(crate) struct WordLines {
    alloc: Global,
}

impl WordLines {
    pub(crate) fn new(alloc: Global) -> WordLines {
        WordLines { alloc }
    }
}

impl AnswersLines for WordLines {
    ghost use Rattle.std.specs.Prelude.{refl};
    ghost use Rattle.words.specs.LineAnswers.{answer_of};

    ghost answer_of = { λ lines. answer_of };

    ghost alike = { λ one other line. refl };

    fn say_line(&self, line: &[u8], reply: &mut String) -> Result<bool, AllocError> {
        say_line(self.alloc, line, reply)
    }

    fn say_fault(&self, line: &[u8], said: &mut String) -> Result<(), AllocError> {
        match fault_of(line) {
            Some(fault) => write!(said, "{fault}"),
            None => Ok(()),
        }
    }
}
