//! `replay` from any reader to any writer.
ghost use Rattle.std.specs.Prelude.{◌≡◌, IfSome};
ghost use Rattle.script.specs.Giving.{MayAnswer};
ghost use Rattle.script.specs.LastLines.{EndedBy};
ghost use Rattle.script.specs.Serves.{Serves};
ghost use Rattle.replay.specs.ReplayText.{replays};
ghost use Rattle.replay.specs.Replaying.{Replays};

use crate::kind::Replay;
use script::{Ending, LastLine, ServeError, Status, serve_script, serve_to_last_line, status_of};
use std::alloc::Global;
use std::io::{Read, Write};

/// Reads a script, serves its lines in order, and writes their answers.
///
/// Each answer is written and flushed before the read that follows its line. A `write` may take any count from 1 on,
/// and interrupted calls are retried.
pub fn serve<R: Read, W: Write>(
    alloc: Global,
    input: &mut R,
    output: &mut W,
) -> Result<Ending, ServeError>
    ensures { Serves (MayAnswer replays) result (R.remaining input.old) (R.remaining input.new)
        (W.contents output.old) (W.contents output.new) }
{
    serve_script::<Replay, R, W>(alloc, input, output)
}

/// Reads a script and writes its answers, the line `no memory` among them, and returns how it went. Also returns the
/// line that ended the run, or None if no line did or there is no memory to keep it.
pub fn replay_to_last_line<R: Read, W: Write>(
    alloc: Global,
    input: &mut R,
    output: &mut W,
) -> (Status, Option<LastLine>)
    ensures replays { Replays result.0 (R.remaining input.old) (R.remaining input.new)
        (W.contents output.old) (W.contents output.new) }
    ensures last { result.0 ≡ Status.Refused
        → IfSome result.1 (λ last.
        EndedBy (MayAnswer replays) last (R.remaining input.old) (W.contents output.old)
        (W.contents output.new)) }
{
    let (served, last) = serve_to_last_line::<Replay, R, W>(alloc, input, output);
    (status_of(&served), last)
}

/// Reads a script and writes its answers, the line `no memory` among them, and returns how it went.
pub fn replay<R: Read, W: Write>(alloc: Global, input: &mut R, output: &mut W) -> Status
    ensures { Replays result (R.remaining input.old) (R.remaining input.new) (W.contents output.old)
        (W.contents output.new) }
{
    replay_to_last_line(alloc, input, output).0
}
