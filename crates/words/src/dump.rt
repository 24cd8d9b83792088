//! A hex dump of a queue from any reader to any writer.
ghost use Rattle.words.specs.Tellings.{TellsOfDump};

use crate::dump_answering::DumpLines;
use line_answers::{Notes, answer_lines_with_notes};
use script::Status;
use std::alloc::Global;
use std::io::{Read, Write};

/// Reads a hex dump of commands, 16 bytes a line as `dump_line` of crate hex_dump has it, and writes a line for each: the
/// text of the command, `illegal` and the fault, or `bad line`. Blank lines and an address alone are skipped. Returns how
/// it went, refused if any line is no legal command, and notes on the bad lines.
///
/// Each answer is written and flushed before the read that follows its line. A line of over 4,096 bytes ends the run.
pub fn hex_dump_with_notes<R: Read, W: Write>(
    alloc: Global,
    input: &mut R,
    output: &mut W,
) -> (Status, Notes)
    ensures { TellsOfDump result.0 (R.remaining input.old) (R.remaining input.new)
        (W.contents output.old) (W.contents output.new) }
{
    answer_lines_with_notes(alloc, DumpLines, input, output)
}
