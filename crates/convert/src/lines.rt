//! A guest's commands from any reader to any writer.
ghost use Rattle.std.specs.Prelude.{◌≡◌, ◌++◌, ◌∷◌, [], OnOk, string_bytes};
ghost use Rattle.convert.specs.Tellings.{TellsOfGuest};

use crate::answer::say_answer;
use crate::line::Brought;
use cmdcodec::decode;
use guest_commands::Guest;
use line_answers::{AnswersLines, Notes, answer_lines_with_notes};
use script::Status;
use std::alloc::{AllocError, Global};
use std::io::{Read, Write};

/// Why a line is bad.
const BAD_LINE_MEANS: &str =
    "a command is 32 hexadecimal digits, or twice 0x and 1 to 16 hexadecimal digits, lo and then hi";

/// Why a command is refused.
const REFUSED_MEANS: &str =
    "the guest has neither EL2 nor stage 2, and is asked no pages and has no stalls to answer";

/// Answers lines that bring a command of a guest each.
#[derive(Drop)]
struct GuestLines {
    alloc: Global,
    guest: Guest,
}

fn end_line(reply: &mut String) -> Result<(), AllocError>
    ensures { OnOk result (string_bytes reply.new ≡ string_bytes reply.old ++ 10 ∷ []) }
{
    reply.push_str("\n")
}

impl AnswersLines for GuestLines {
    ghost use Rattle.convert.specs.Answers.{guest_answer};
    ghost use Rattle.convert.specs.Laws.{judged_alike};

    ghost answer_of = { λ lines line. guest_answer lines.guest line };

    ghost alike = { λ one other line. judged_alike one.guest other.guest line };

    #[tactic(auto, unfolding(crate::specs::Answers::guest_answer))]
    fn say_line(&self, line: &[u8], reply: &mut String) -> Result<bool, AllocError> {
        match Brought::by(line) {
            Brought::Nothing => Ok(true),
            Brought::Command(raw) => {
                let goes_on = say_answer(self.alloc, &self.guest, raw, reply)?;
                end_line(reply)?;
                Ok(goes_on)
            }
            Brought::Bad => {
                reply.push_str("bad line\n")?;
                Ok(false)
            }
        }
    }

    fn say_fault(&self, line: &[u8], said: &mut String) -> Result<(), AllocError> {
        match Brought::by(line) {
            Brought::Nothing => Ok(()),
            Brought::Command(raw) => match decode(raw) {
                Ok(_) => said.push_str(REFUSED_MEANS),
                // Its answer says so.
                Err(_) => Ok(()),
            },
            Brought::Bad => said.push_str(BAD_LINE_MEANS),
        }
    }
}

/// Reads lines that bring a command of the guest each, and writes a line for each that isn't skipped: the host's commands
/// for it, `nothing`, `sync`, `configure` and CMD_CFGI_STE for the streams whose entries the hypervisor writes, `illegal`
/// and the fault, `refused`, or `bad line`. Returns how it went, refused if the guest's queue stops at any of them or a
/// line is bad, and notes on why.
///
/// Each answer is written and flushed before the read that follows its line. A line of over 4,096 bytes ends the run.
pub fn convert_with_notes<R: Read, W: Write>(
    alloc: Global,
    guest: Guest,
    input: &mut R,
    output: &mut W,
) -> (Status, Notes)
    ensures { TellsOfGuest guest result.0 (R.remaining input.old) (R.remaining input.new)
        (W.contents output.old) (W.contents output.new) }
{
    answer_lines_with_notes(alloc, GuestLines { alloc, guest }, input, output)
}
