//! Lines of a hex dump, as a kind of lines.
use crate::line::{say_bad_line, say_raw};
use hex_dump::{Dumped, dump_line};
use line_answers::{AnswersLines, next_word};
use std::alloc::AllocError;

/// Answers lines of a hex dump, each with the 16 bytes of a command.
#[derive(Drop)]
pub(crate) struct DumpLines;

impl AnswersLines for DumpLines {
    ghost use Rattle.std.specs.Prelude.{refl};
    ghost use Rattle.words.specs.DumpAnswers.{dump_answer};

    ghost answer_of = { λ lines. dump_answer };

    ghost alike = { λ one other line. refl };

    #[tactic(auto, unfolding(crate::specs::DumpAnswers::dump_answer))]
    fn say_line(&self, line: &[u8], reply: &mut String) -> Result<bool, AllocError> {
        match dump_line(line) {
            Dumped::Nothing => Ok(true),
            Dumped::Slot(slot) => say_raw(slot.raw, reply),
            Dumped::Bad => say_bad_line(reply),
        }
    }

    fn say_fault(&self, line: &[u8], said: &mut String) -> Result<(), AllocError> {
        match dump_line(line) {
            Dumped::Bad => said.push_str(fault_of(line)),
            Dumped::Nothing | Dumped::Slot(_) => Ok(()),
        }
    }
}

/// Returns what is wrong with a line that is no line of such a dump.
fn fault_of(line: &[u8]) -> &'static str {
    match next_word(line) {
        Some((word, _)) if word == b"*".as_slice() => {
            "lines like the one before are left out here: dump all of them (-v)"
        }
        _ => "an address and the 16 bytes behind it were expected",
    }
}
