//! `words` from any reader to any writer.
ghost use Rattle.words.specs.Tellings.{TellsOfWords};

use crate::answering::WordLines;
use line_answers::{Notes, answer_lines_with_notes};
use script::Status;
use std::alloc::Global;
use std::io::{Read, Write};

/// Reads lines that bring a command each, and writes a line for each that isn't skipped: the text of the command,
/// `illegal` and the fault, or what is bad. Returns how it went, refused if any line is no legal command, and notes on
/// which word of each `bad line` is wrong.
///
/// Each answer is written and flushed before the read that follows its line. A line of over 4,096 bytes ends the run.
pub fn words_with_notes<R: Read, W: Write>(
    alloc: Global,
    input: &mut R,
    output: &mut W,
) -> (Status, Notes)
    ensures { TellsOfWords result.0 (R.remaining input.old) (R.remaining input.new)
        (W.contents output.old) (W.contents output.new) }
{
    answer_lines_with_notes(alloc, WordLines::new(alloc), input, output)
}

/// The same without the notes.
pub fn words<R: Read, W: Write>(alloc: Global, input: &mut R, output: &mut W) -> Status
    ensures { TellsOfWords result (R.remaining input.old) (R.remaining input.new)
        (W.contents output.old) (W.contents output.new) }
{
    words_with_notes(alloc, input, output).0
}
