//! What a tracked unit did with a command.
use engine::Verdict;

/// What a tracked unit did with a command.
#[derive(Clone, Copy, Debug, PartialEq, Eq)]
pub enum TrackedVerdict {
    /// The unit judged it.
    Judged(Verdict),
    /// It is a legal CMD_SYNC, and so many outstanding transactions began with an entry that a
    /// command before it covers. It isn't taken: it comes again when they have ended.
    Waiting { transactions: u32 },
}
