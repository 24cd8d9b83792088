//! What is right for a line.
ghost use Rattle.std.specs.Prelude.{◌≡◌};
ghost use Rattle.trace.specs.Replies.{right_after};

use crate::request::Conduct;
use engine::{AckFault, StepAnswer};
use transactions::WalkFault;

/// What is right for a line of a log.
#[derive(Clone, Copy, Debug, PartialEq, Eq)]
pub(crate) enum Reply {
    /// Nothing is to be done: a comment or a line without words.
    Nothing,
    /// The walk began.
    Walking,
    /// What the walk read is filled.
    Filled,
    /// It isn't filled.
    NotFilled(WalkFault),
    /// The access uses an entry of this value.
    Using { value: u64 },
    /// Nothing is held under the tag.
    NotHeld,
    /// The access is over.
    Ended,
    /// The command was judged, or nothing is taken any more.
    Step(StepAnswer),
    /// The CMD_SYNC isn't taken: it waits for so many accesses.
    Waiting { transactions: u32 },
    /// The error stop is acknowledged.
    Acknowledged,
    /// It isn't.
    NotAcknowledged(AckFault),
    /// The model did what is right.
    Right,
    /// Nothing that a model did can be judged here.
    Unjudged,
}

impl Reply {
    /// Returns what a model should have done with this line, given the same of the line before.
    pub(crate) fn right_after(&self, before: Option<Conduct>) -> Option<Conduct>
        ensures { result ≡ right_after self.now before }
    {
        match *self {
            Reply::Nothing => before,
            Reply::Filled => Some(Conduct::Filled),
            Reply::NotFilled(WalkFault::Overtaken) => Some(Conduct::Overtaken),
            Reply::Using { value } => Some(Conduct::Used { value }),
            Reply::NotHeld => Some(Conduct::Missed),
            Reply::Step(StepAnswer::Applied { .. }) => Some(Conduct::Completed),
            Reply::Step(StepAnswer::Replaced(_)) => Some(Conduct::Completed),
            Reply::Waiting { .. } => Some(Conduct::Waited),
            _ => None,
        }
    }
}
