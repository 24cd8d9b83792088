//! `schedule` from any reader to any writer.
ghost use Rattle.std.specs.Prelude.{◌≡◌, IfOk, IfSome};
ghost use Rattle.script.specs.Giving.{Answers};
ghost use Rattle.script.specs.LastLines.{EndedBy};
ghost use Rattle.script.specs.Serves.{Serves};
ghost use Rattle.schedule.specs.ScheduleText.{schedules};
ghost use Rattle.schedule.specs.Scheduling.{Schedules};

use crate::kind::Schedule;
use script::{Ending, LastLine, ServeError, Status, serve_to_last_line, status_of};
use std::alloc::Global;
use std::io::{Read, Write};

/// Plays a script as `serve` does. Also returns the line that ended the run.
fn play<R: Read, W: Write>(
    alloc: Global,
    input: &mut R,
    output: &mut W,
) -> (Result<Ending, ServeError>, Option<LastLine>)
    ensures serves { Serves (Answers schedules) result.0 (R.remaining input.old)
        (R.remaining input.new) (W.contents output.old) (W.contents output.new) }
    ensures last { IfOk result.0 (λ ending. ending ≡ Ending.Refused
        → IfSome result.1 (λ last.
        EndedBy (Answers schedules) last (R.remaining input.old) (W.contents output.old)
        (W.contents output.new))) }
{
    serve_to_last_line::<Schedule, R, W>(alloc, input, output)
}

/// Reads a script, plays its lines in order, and writes their answers.
///
/// Each answer is written and flushed before the read that follows its line. A `write` may take any count from 1 on,
/// and interrupted calls are retried.
pub fn serve<R: Read, W: Write>(
    alloc: Global,
    input: &mut R,
    output: &mut W,
) -> Result<Ending, ServeError>
    ensures { Serves (Answers schedules) result (R.remaining input.old) (R.remaining input.new)
        (W.contents output.old) (W.contents output.new) }
{
    play(alloc, input, output).0
}

/// Reads a script, plays it as a schedule of a ring's steps, and writes its answers, the line `no memory` among them.
/// Returns how it went, and the line that ended the run, or None if no line did or there is no memory to keep it.
pub fn schedule_to_last_line<R: Read, W: Write>(
    alloc: Global,
    input: &mut R,
    output: &mut W,
) -> (Status, Option<LastLine>)
    ensures schedules { Schedules result.0 (R.remaining input.old) (R.remaining input.new)
        (W.contents output.old) (W.contents output.new) }
    ensures last { result.0 ≡ Status.Refused
        → IfSome result.1 (λ last.
        EndedBy (Answers schedules) last (R.remaining input.old) (W.contents output.old)
        (W.contents output.new)) }
{
    let (served, last) = play(alloc, input, output);
    (status_of(&served), last)
}

/// Reads a script, plays it as a schedule of a ring's steps, and writes its answers, the line `no memory` among them.
/// Returns how it went.
pub fn schedule<R: Read, W: Write>(alloc: Global, input: &mut R, output: &mut W) -> Status
    ensures { Schedules result (R.remaining input.old) (R.remaining input.new)
        (W.contents output.old) (W.contents output.new) }
{
    schedule_to_last_line(alloc, input, output).0
}
