//! Room for what the last part of a run hands back.
ghost use Rattle.std.specs.Prelude.{◌≡◌, ◌≤◌, [], OnErr, IfOk, Err, vec_capacity};

use crate::fault::StressFault;
use ring::Sender;
use std::alloc::Global;

/// Room for so many senders, and for what each finds when it asks. It is made before the workers start, so that the
/// last part takes no memory.
#[derive(Drop)]
pub(crate) struct Room {
    pub(crate) senders: Vec<Sender>,
    pub(crate) done: Vec<u32>,
}

impl Room {
    /// Errors: S1.
    pub(crate) fn new(alloc: Global, many: u32) -> Result<Room, StressFault>
        ensures senders { IfOk result (λ room. (room.senders.items ≡ [])
            × (many ≤ vec_capacity room.senders)) }
        ensures done { IfOk result (λ room. (room.done.items ≡ [])
            × (many ≤ vec_capacity room.done)) }
        ensures err { OnErr result (result ≡ Err StressFault.NoMemory) }
    {
        let Ok(senders) = Vec::with_capacity(alloc, many as usize) else {
            return Err(StressFault::NoMemory);
        };
        let Ok(done) = Vec::with_capacity(alloc, many as usize) else {
            return Err(StressFault::NoMemory);
        };
        Ok(Room { senders, done })
    }
}
