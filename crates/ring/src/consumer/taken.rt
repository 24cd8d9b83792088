//! What a take finds.
use crate::consumer::{Consumer, Pending, PendingRun};
use crate::device::Device;

/// What a take found at the head.
pub enum Taken<D: Device> {
    /// Nothing is reserved.
    Empty(Consumer<D>),
    /// Nothing is reserved and the ring is closed, so nothing will be.
    Drained(Consumer<D>),
    /// The command at the head is reserved, but its sender hasn't handed it over.
    Unwritten(Consumer<D>),
    /// A command. It must be completed or put back.
    Ready(Pending<D>),
}

/// What a take found from the head on.
pub enum TakenRun<D: Device> {
    /// Nothing is reserved.
    Empty(Consumer<D>),
    /// Nothing is reserved and the ring is closed, so nothing will be.
    Drained(Consumer<D>),
    /// The command at the head is reserved, but its sender hasn't handed it over.
    Unwritten(Consumer<D>),
    /// A run of commands. It must be completed or put back.
    Ready(PendingRun<D>),
}

/// What a take of a `PendingConsumer` found from the head on.
#[derive(Clone, Copy, Debug, PartialEq, Eq)]
pub enum Found {
    /// Nothing is reserved.
    Empty,
    /// Nothing is reserved and the ring is closed, so nothing will be.
    Drained,
    /// The command at the head is reserved, but its sender hasn't handed it over.
    Unwritten,
    /// A run of commands, which is pending.
    Ready,
}
