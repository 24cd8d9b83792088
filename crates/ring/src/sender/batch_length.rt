//! How many slots a batch takes.
ghost use Rattle.std.specs.Prelude.{◌≡◌, ◌≤◌};
ghost use Rattle.cmdcodec.specs.Bodies.{IsBody};
ghost use Rattle.ring.specs.Runs.{length_with};

use crate::sender::batch_kind::BatchKind;
use batch::BorrowedBatch;

/// Returns how many commands a batch has, 1 to 64, including its closing CMD_SYNC if it has one.
pub fn batch_length<K: BatchKind>(batch: &BorrowedBatch<'_>) -> u32
    ensures value { result ≡ length_with K.closes batch.now }
    ensures body { IsBody batch.now }
    ensures some { 1 ≤ result }
    ensures few { result ≤ 64 }
{
    if K::closes() {
        batch.len() as u32 + 1
    } else {
        batch.len() as u32
    }
}
