//! `encode` from any reader to any writer.
ghost use Rattle.encode.specs.Tellings.{TellsOfEncode};

use crate::answering::TextLines;
use line_answers::{Notes, answer_lines_with_notes};
use script::Status;
use std::alloc::Global;
use std::io::{Read, Write};

/// Reads lines that are the text of a command each, and writes a line for each that isn't skipped: the 32 lower-case
/// hexadecimal digits of the command's bytes in memory, or `bad command`. Returns how it went, refused if any line is
/// no command's text, and notes on why those are none.
///
/// Each answer is written and flushed before the read that follows its line. A line of over 4,096 bytes ends the run.
pub fn encode_with_notes<R: Read, W: Write>(
    alloc: Global,
    input: &mut R,
    output: &mut W,
) -> (Status, Notes)
    ensures { TellsOfEncode result.0 (R.remaining input.old) (R.remaining input.new)
        (W.contents output.old) (W.contents output.new) }
{
    answer_lines_with_notes(alloc, TextLines::new(alloc), input, output)
}

/// The same without the notes.
pub fn encode<R: Read, W: Write>(alloc: Global, input: &mut R, output: &mut W) -> Status
    ensures { TellsOfEncode result (R.remaining input.old) (R.remaining input.new)
        (W.contents output.old) (W.contents output.new) }
{
    encode_with_notes(alloc, input, output).0
}
