//! Why a batch refuses commands.
ghost use Rattle.std.specs.Prelude.{◌≡◌};
ghost use Rattle.batch.specs.Faults.{label_of};

use thiserror::Error;

/// Why a batch refuses commands. It stays as it was (own).
#[derive(Clone, Copy, Debug, PartialEq, Eq, Error)]
pub enum BatchFault {
    /// B1: there would be more than 63 commands.
    #[error("B1: more than 63 commands")]
    Full,
    /// B2: a command is a CMD_SYNC, which the sender adds after the batch.
    #[error("B2: a CMD_SYNC among the commands")]
    SyncInside,
    /// B3: the range has no page.
    #[error("B3: no page")]
    NoPages,
    /// B4: the range goes past the last page, `2^52 - 1`.
    #[error("B4: pages past the last one")]
    PastEnd,
    /// B5: there is no command.
    #[error("B5: no command")]
    Empty,
}

impl BatchFault {
    /// Returns its label, `B1` to `B5`.
    pub fn label(self) -> &'static str
        ensures { result.now ≡ label_of self }
    {
        match self {
            BatchFault::Full => "B1",
            BatchFault::SyncInside => "B2",
            BatchFault::NoPages => "B3",
            BatchFault::PastEnd => "B4",
            BatchFault::Empty => "B5",
        }
    }
}
