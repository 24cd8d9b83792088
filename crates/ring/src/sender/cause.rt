//! Why nothing was reserved.
ghost use Rattle.std.specs.Prelude.{◌≡◌};
ghost use Rattle.ring.specs.sender.Sending.{may_pass};
ghost use Rattle.ring.specs.FaultNames.{cause_label};

use crate::sender::Sender;
use thiserror::Error;

/// Why nothing was reserved: the first cause that applies, in this order.
#[derive(Clone, Copy, Debug, PartialEq, Eq, Error)]
pub enum Cause {
    /// Q4: the batch has more commands than the ring has slots.
    #[error("Q4: the batch is longer than the ring")]
    TooLong,
    /// Q5: the sender has reserved as many batches as it may.
    #[error("Q5: the sender has no batch left")]
    Exhausted,
    /// Q1: the ring is closed.
    #[error("Q1: the ring is closed")]
    Closed,
    /// Q2: the ring has too little room.
    #[error("Q2: the ring has too little room")]
    Full,
    /// Q3: the control word is no longer the one that was looked at.
    #[error("Q3: another changed the ring first")]
    Contended,
}

impl Cause {
    /// Returns its label, `Q1` to `Q5`.
    pub fn label(self) -> &'static str
        ensures { result.now ≡ cause_label self }
    {
        match self {
            Cause::TooLong => "Q4",
            Cause::Exhausted => "Q5",
            Cause::Closed => "Q1",
            Cause::Full => "Q2",
            Cause::Contended => "Q3",
        }
    }

    /// Whether a later try may succeed.
    pub(crate) fn may_pass(self) -> bool
        ensures { result ≡ may_pass self }
    {
        match self {
            Cause::Full | Cause::Contended => true,
            Cause::TooLong | Cause::Exhausted | Cause::Closed => false,
        }
    }

    /// The refusal for this cause, with the sender.
    pub(crate) fn refused(self, sender: Sender) -> Refused
        ensures sender { result.sender ≡ sender }
        ensures cause { result.cause ≡ self }
    {
        Refused {
            sender,
            cause: self,
        }
    }
}

/// Nothing was reserved; the sender comes back with the cause.
#[derive(Drop)]
pub struct Refused {
    pub sender: Sender,
    pub cause: Cause,
}
