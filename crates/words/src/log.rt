//! A kernel's log from any reader to any writer.
ghost use Rattle.words.specs.Tellings.{TellsOfLog};

use crate::log_answering::LogAnswering;
use line_answers::{Notes, judged};
use script::{Status, serve, status_of};
use std::alloc::Global;
use std::io::{Read, Write};

/// Reads a kernel's log, and writes a line for each command in it: the text of the command, or `illegal` and the fault.
/// Returns how it went, and notes on halves of commands that stand alone.
///
/// Linux prints a command that it skips as two lines, each of which ends in `0x` and 16 hexadecimal digits, lo first. All
/// other lines are skipped, and so are such lines right behind one that ends in `received:`, as an event's. A half that
/// no other follows in the next line is answered `bad line`, or by no text if no line follows it; either way the run is
/// refused, as it is for an illegal command. That is this project's choice.
///
/// Each answer is written and flushed before the read that follows its line. A line of over 4,096 bytes ends the run.
pub fn log_with_notes<R: Read, W: Write>(
    alloc: Global,
    input: &mut R,
    output: &mut W,
) -> (Status, Notes)
    ensures { TellsOfLog result.0 (R.remaining input.old) (R.remaining input.new)
        (W.contents output.old) (W.contents output.new) }
{
    let mut answering = LogAnswering::new(alloc);
    let served = serve(alloc, &mut answering, input, output);
    let (all_good, notes) = answering.ended();
    (judged(status_of(&served), all_good), notes)
}
