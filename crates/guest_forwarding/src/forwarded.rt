//! What comes back once a guest's commands were consumed.
use guest_commands::Ended;
use ring::Sender;

/// So many of a guest's commands were consumed (own).
#[derive(Drop)]
pub struct Forwarded {
    /// Their sender.
    pub sender: Sender,
    /// How many: all that are given, or fewer.
    pub consumed: usize,
    /// Why no more.
    pub ended: Ended,
}
