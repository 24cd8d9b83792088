//! What a tracked unit did with words of a queue in memory.
use engine::Judgement;

/// What a tracked unit did with the words that come next in a queue in memory.
#[derive(Clone, Copy, Debug, PartialEq, Eq)]
pub enum TrackedJudgement {
    /// The unit judged them.
    Judged(Judgement),
    /// They are a legal CMD_SYNC, and so many outstanding transactions began with an entry that a
    /// command before it covers. Nothing was taken: it comes again when they have ended.
    Waiting { transactions: u32 },
}
