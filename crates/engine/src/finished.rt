//! What is left of an engine and its ring.
use crate::counts::Counts;
use caches::Caches;
use ring::Summary;

/// What is left once an engine and all senders of its ring are joined.
#[derive(Drop)]
pub struct Finished {
    /// What was reserved and taken.
    pub summary: Summary,
    /// The counts of the commands taken.
    pub counts: Counts,
    /// The caches, which are settled for all commands taken.
    pub caches: Caches,
}
