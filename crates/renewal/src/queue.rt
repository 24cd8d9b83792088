//! A queue as it is handed in and out.
use crate::fault::RenewalFault;
use engine::{Engine, Finished};
use ring::{Ring, Sender};

/// A ring with all its senders, in the order of their numbers, and the engine that serves it.
#[derive(Drop)]
pub struct Queue {
    pub ring: Ring,
    pub senders: Vec<Sender>,
    pub engine: Engine,
}

/// The sizes of the new ring and its caches. The number of senders stays the same.
#[derive(Clone, Copy, Debug, PartialEq, Eq)]
pub struct Sizes {
    /// The binary logarithm of the number of slots, 1 to 19.
    pub log2: u32,
    /// How many batches each sender may reserve, at least 1.
    pub max_batches: u32,
    /// How many entries the caches may hold, 1 to 65,536.
    pub capacity: u32,
}

/// An old queue that has ended, and the new one.
#[derive(Drop)]
pub struct Renewed {
    pub old: Finished,
    pub queue: Queue,
}

/// A queue that wasn't renewed and goes on.
#[derive(Drop)]
pub struct Refused {
    pub fault: RenewalFault,
    pub queue: Queue,
}
