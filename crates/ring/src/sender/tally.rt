//! What a sender has reserved so far.
ghost use Rattle.std.specs.Prelude.{◌≡◌, ◌<◌, ◌+◌, ◌^◌};
ghost use Rattle.ring.specs.sender.Senders.{one_more};

use crate::sender::batch_kind::BatchKind;

/// Which sender it is, and how many batches it has reserved.
#[derive(Clone, Copy)]
pub struct Tally {
    /// The sender's number, from 0.
    pub(crate) sender: u32,
    pub(crate) batches: u32,
    /// How many of its batches close with a CMD_SYNC: the number of the last of them.
    pub(crate) numbers: u32,
}

impl Tally {
    /// A tally without batches.
    pub(crate) fn new(sender: u32) -> Tally
        ensures { result ≡ record { sender = sender; batches = 0; numbers = 0 } }
    {
        Tally {
            sender,
            batches: 0,
            numbers: 0,
        }
    }

    /// The tally with one more batch, of this kind.
    pub(crate) fn with_batch<K: BatchKind>(self) -> Tally
        requires batches { self.batches + 1 < 2 ^ 32 }
        requires numbers { self.numbers + 1 < 2 ^ 32 }
        ensures { result ≡ one_more K.closes self }
    {
        Tally {
            sender: self.sender,
            batches: self.batches + 1,
            numbers: self.numbers + u32::from(K::closes()),
        }
    }
}
