//! The subcommands, from any reader to any writer and from any word to its text.
ghost use Rattle.std.specs.Prelude.{◌≡◌, IfOk, string_bytes};
ghost use Rattle.decode.specs.DecodeText.{decode_text};
ghost use Rattle.replay.specs.Replaying.{Replays};
ghost use Rattle.schedule.specs.Scheduling.{Schedules};

use script::Status;
use std::alloc::{AllocError, Global};
use std::io::{Read, Write};

/// Reads a script and writes its answers, the line `no memory` among them, and returns how it went.
pub fn replay<R: Read, W: Write>(alloc: Global, input: &mut R, output: &mut W) -> Status
    ensures { Replays result (R.remaining input.old) (R.remaining input.new) (W.contents output.old)
        (W.contents output.new) }
{
    replay::replay(alloc, input, output)
}

/// Reads a script, plays it as a schedule of a ring's atomic steps, and writes its answers, the line `no memory` among
/// them. Returns how it went.
pub fn schedule<R: Read, W: Write>(alloc: Global, input: &mut R, output: &mut W) -> Status
    ensures { Schedules result (R.remaining input.old) (R.remaining input.new)
        (W.contents output.old) (W.contents output.new) }
{
    schedule::schedule(alloc, input, output)
}

/// Returns what a word of hexadecimal digits means as a command, and whether it is a legal one.
pub fn decode_text(alloc: Global, word: &str) -> Result<(String, bool), AllocError>
    ensures { IfOk result (λ told. (string_bytes told.0 ≡ (decode_text word.now).0)
        × (told.1 ≡ (decode_text word.now).1)) }
{
    decode::decode_text(alloc, word)
}
