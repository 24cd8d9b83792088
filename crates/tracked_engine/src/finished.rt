//! What is left of a tracked engine and its ring.
use ring::Summary;
use transactions::TrackedUnit;

/// What is left once a tracked engine and all senders of its ring are joined.
#[derive(Drop)]
pub struct TrackedFinished {
    /// What was reserved and taken.
    pub summary: Summary,
    /// The unit, which is tracked for all commands taken. Transactions may be outstanding still.
    pub tracked: TrackedUnit,
}
