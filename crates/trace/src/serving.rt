//! The log of a device model from any reader to any writer.
ghost use Rattle.trace.specs.Tellings.{TellsOfLog};

use crate::answering::LogAnswering;
use script::{Status, serve, status_of};
use std::alloc::Global;
use std::io::{Read, Write};

/// Reads the log of a device model, and writes what is right for each line. Returns how it went:
/// refused if a line is no line of a log, or the model did something else than what is right. Such a
/// line ends the run and is told with its number. The lines are this project's choice; what is right
/// follows the standard's rules on invalidation and CMD_SYNC ("Command queue", "CMD_SYNC").
///
/// Each answer is written and flushed before the read that follows its line. A line of over 4,096
/// bytes ends the run.
pub fn trace<R: Read, W: Write>(alloc: Global, input: &mut R, output: &mut W) -> Status
    ensures { TellsOfLog result (R.remaining input.old) (R.remaining input.new)
        (W.contents output.old) (W.contents output.new) }
{
    let mut answering = LogAnswering::new(alloc);
    let served = serve(alloc, &mut answering, input, output);
    let status = status_of(&served);
    answering.finish();
    status
}
