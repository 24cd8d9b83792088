//! A CMD_SYNC that was completed.
ghost use Rattle.std.specs.Prelude.{◌≡◌, ◌≤◌, length, take};
ghost use Rattle.engine.specs.Completions.{AreTold, completion_of};

use cmdcodec::{Raw, cell_owner};
use ring::{Device, PendingRun};

/// Whose CMD_SYNC was completed, laid out as in C.
#[repr(C)]
#[derive(Clone, Copy, Debug, Default, PartialEq, Eq)]
pub struct Completion {
    /// The sender, from 0.
    pub sender: u64,
    /// The number of its CMD_SYNC, from 1.
    pub number: u64,
}

/// Returns what a command completes, if it is a CMD_SYNC to a sender's completion cell (own): that sender, and the
/// number that it writes there, its MSIDATA. A consumer that isn't an engine's may use it too.
pub fn completion_of(raw: Raw) -> Option<Completion>
    ensures { result ≡ completion_of raw }
{
    if !raw.is_sync() {
        return None;
    }
    let sender = cell_owner(raw.hi)?;
    let number = raw.lo >> 32;
    Some(Completion { sender, number })
}

/// Writes what the first `count` commands of a run complete to the beginning of `completions`, in their order, and
/// returns how many that are. The rest of `completions` is as before. With room for fewer than `count` it may
/// tell fewer. A consumer that isn't an engine's may use it too.
pub fn tell_completions<D: Device>(
    run: &PendingRun<D>,
    count: u32,
    completions: &mut [Completion],
) -> usize
    requires { count ≤ length run.now.raws }
    ensures { count ≤ length completions.old
        → AreTold (take count run.now.raws) completions.old completions.new result }
{
    let mut many = 0;
    if completions.is_empty() {
        return many;
    }
    for place in 0..count {
        if let Some(completion) = completion_of(run.get(place).unwrap())
            && many < completions.len()
        {
            completions[many] = completion;
            many += 1;
        }
    }
    many
}
