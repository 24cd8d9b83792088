//! Times of batches of one sender, which nobody takes.
ghost use Rattle.std.specs.Prelude.{◌≡◌, ◌≤◌};

use crate::commands::batch_of;
use crate::nothing::Nothing;
use batch::Batch;
use ring::{Ring, Sender};
use std::io;
use std::io::ErrorKind;
use std::rt::Clock;
use std::time::Instant;

/// How many batches of each length are timed.
const BATCHES: u32 = 10_000_000;

/// The largest ring, of `2^19` slots.
const LOG2: u32 = 19;

/// Reserves and publishes the batch as often as the ring has room, at most `most` times, and returns how often it did.
fn fill(ring: &Ring, sender: Sender, batch: &Batch, most: u32) -> u32
    requires { sender.ring ≡ ring.now }
    ensures { result ≤ most }
{
    let mut sender = sender;
    for sent in 0..most {
        match sender.send(ring, batch, 1) {
            Ok((again, _receipt)) => sender = again,
            Err(_) => return sent,
        }
    }
    most
}

/// Returns the nanoseconds that `BATCHES` batches took. They go into one new ring after another; making these isn't
/// timed.
fn time_batches<R: Clock + AllocGlobal>(rt: &R, batch: &Batch) -> io::Result<u128> {
    let mut left = BATCHES;
    let mut nanoseconds: u128 = 0;
    for _ in 0..BATCHES {
        if left == 0 {
            return Ok(nanoseconds);
        }
        let Ok((ring, mut senders, _consumer)) = Ring::new::<Nothing>(rt.alloc(), LOG2, 1, u32::MAX)
        else {
            return Err(io::Error::from(ErrorKind::OutOfMemory));
        };
        let Some(sender) = senders.pop() else {
            return Err(io::Error::from(ErrorKind::InvalidData));
        };
        let start = Instant::now(rt)?;
        let sent = fill(&ring, sender, batch, left);
        nanoseconds = nanoseconds.saturating_add(start.elapsed(rt)?.as_nanos());
        left -= sent;
    }
    Ok(nanoseconds)
}

/// Prints a line for batches of 1 and of 63 commands, each with its CMD_SYNC: how many commands, the nanoseconds of all
/// batches, and how many batches.
pub(crate) fn time_all<R: Clock + Print + AllocGlobal>(rt: &R) -> io::Result<()> {
    for length in [1usize, 63] {
        let batch = batch_of(length)?;
        let nanoseconds = time_batches(rt, &batch)?;
        println!(rt; "{length} {nanoseconds} {BATCHES}")?;
    }
    Ok(())
}
