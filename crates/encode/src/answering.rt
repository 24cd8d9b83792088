//! Lines that are commands' texts, as a kind of lines.
ghost use Rattle.std.specs.Prelude.{◌≡◌, ◌++◌, ◌∷◌, [], IfOk, OnOk, string_bytes, codes};
ghost use Rattle.hex.specs.Hex.{encode_lower};
ghost use Rattle.encode.specs.LineAnswers.{bad_command, raw_answer};

use crate::line::encode_line;
use cmdcodec::{Raw, to_bytes};
use line_answers::AnswersLines;
use std::alloc::{AllocError, Global};
use std::fmt::Write;

fn end_line(reply: &mut String) -> Result<(), AllocError>
    ensures { OnOk result (string_bytes reply.new ≡ string_bytes reply.old ++ 10 ∷ []) }
{
    reply.push_str("\n")
}

/// Appends bytes as digits, on their own line.
fn say_digits(alloc: Global, bytes: &[u8], reply: &mut String) -> Result<(), AllocError>
    ensures { OnOk result (string_bytes reply.new
        ≡ string_bytes reply.old ++ (encode_lower bytes.now ++ codes "\n")) }
{
    let digits = hex::encode(alloc, bytes)?;
    reply.push_str(digits.as_str())?;
    end_line(reply)
}

/// Appends the bytes of a command as a line.
fn say_raw(alloc: Global, raw: Raw, reply: &mut String) -> Result<bool, AllocError>
    ensures text { OnOk result (string_bytes reply.new
        ≡ string_bytes reply.old ++ (raw_answer raw).text) }
    ensures good { IfOk result (λ is_good. is_good ≡ (raw_answer raw).is_good) }
{
    say_digits(alloc, to_bytes(raw).as_slice(), reply)?;
    Ok(true)
}

fn say_bad_command(reply: &mut String) -> Result<bool, AllocError>
    ensures text { OnOk result (string_bytes reply.new
        ≡ string_bytes reply.old ++ bad_command.text) }
    ensures good { IfOk result (λ is_good. is_good ≡ bad_command.is_good) }
{
    reply.push_str("bad command\n")?;
    Ok(false)
}

/// Answers lines that are the text of a command each.
#[derive(Drop)]
pub(crate) struct TextLines {
    alloc: Global,
}

impl TextLines {
    pub(crate) fn new(alloc: Global) -> TextLines {
        TextLines { alloc }
    }
}

impl AnswersLines for TextLines {
    ghost use Rattle.std.specs.Prelude.{refl};
    ghost use Rattle.encode.specs.LineAnswers.{answer_of};

    ghost answer_of = { λ lines. answer_of };

    ghost alike = { λ one other line. refl };

    #[tactic(auto, unfolding(crate::specs::LineAnswers::answer_of))]
    fn say_line(&self, line: &[u8], reply: &mut String) -> Result<bool, AllocError> {
        match encode_line(line) {
            Ok(Some(raw)) => say_raw(self.alloc, raw, reply),
            Ok(None) => Ok(true),
            Err(_) => say_bad_command(reply),
        }
    }

    fn say_fault(&self, line: &[u8], said: &mut String) -> Result<(), AllocError> {
        match encode_line(line) {
            Ok(_) => Ok(()),
            Err(fault) => write!(said, "{fault}"),
        }
    }
}
