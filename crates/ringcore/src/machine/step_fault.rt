//! Why a step is refused.
ghost use Rattle.std.specs.Prelude.{◌≡◌};
ghost use Rattle.ringcore.specs.machine.FaultNames.{label_of};

use thiserror::Error;

/// Why a step was refused (own): the first fault that applies, in the order F8, F10, F11, F9, F2, F1, F3, F5,
/// F6, F4, F7.
#[derive(Clone, Copy, Debug, PartialEq, Eq, Error)]
pub enum StepFault {
    /// F1: a write or a flip of a slot that another sender's open reservation holds.
    #[error("F1: another sender's slot")]
    AnotherSenders,
    /// F2: a write or a flip of a slot that no open reservation holds.
    #[error("F2: a slot that nobody reserved")]
    NotReserved,
    /// F3: a write or a flip of a slot that is flipped in the open reservation.
    #[error("F3: a slot that was handed over")]
    Flipped,
    /// F4: a flip with a half that isn't written, or an advance with one that isn't read.
    #[error("F4: a half that isn't written or read")]
    HalfMissing,
    /// F5: a test or a read of a slot that isn't the head's, nor one that the last test found.
    #[error("F5: a slot that isn't at the head")]
    NotTheHead,
    /// F6: a read or an advance of more than the last test found.
    #[error("F6: more than was found ready")]
    NotSeenReady,
    /// F7: an acknowledgement out of order, or of a sync that isn't taken.
    #[error("F7: an acknowledgement that isn't next")]
    NotNext,
    /// F8: no such sender, slot, half or count, or a flip that leaves its flag word.
    #[error("F8: no such sender, slot, half or count")]
    NoSuchPlace,
    /// F9: a reserve without a look since the last exchange, of a closed ring, or without room.
    #[error("F9: no look since, closed, or no room")]
    NoRoom,
    /// F10: a reserve with a reservation open, or with all batches made.
    #[error("F10: a reservation is open, or no batch is left")]
    NotSettled,
    /// F11: a body that is empty, has more than 63 commands, or has a CMD_SYNC.
    #[error("F11: none, too many, or a CMD_SYNC inside")]
    BadBody,
}

impl StepFault {
    /// Returns its label, `F1` to `F11`.
    pub fn label(self) -> &'static str
        ensures { result.now ≡ label_of self }
    {
        match self {
            StepFault::AnotherSenders => "F1",
            StepFault::NotReserved => "F2",
            StepFault::Flipped => "F3",
            StepFault::HalfMissing => "F4",
            StepFault::NotTheHead => "F5",
            StepFault::NotSeenReady => "F6",
            StepFault::NotNext => "F7",
            StepFault::NoSuchPlace => "F8",
            StepFault::NoRoom => "F9",
            StepFault::NotSettled => "F10",
            StepFault::BadBody => "F11",
        }
    }
}
