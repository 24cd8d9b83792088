//! One try to send a batch.
ghost use Rattle.std.specs.Prelude.{◌≡◌, ◌≢◌, MatchOption};
ghost use Rattle.ring.specs.sender.Senders.{ReceiptValue};
ghost use Rattle.ring.specs.sender.Publishing.{ReservesNone};
ghost use Rattle.stress.specs.Workers.{is_sent, HasReservedOne, HasTried};

use batch::Batch;
use ring::{Receipt, Ring, Sender};

/// How a try to send a batch went.
#[derive(Clone, Copy, Debug, PartialEq, Eq)]
pub(crate) enum Attempt {
    Refused,
    /// The receipt names its CMD_SYNC.
    Sent(Receipt),
    /// It has no CMD_SYNC.
    SentBare,
}

impl Attempt {
    pub(crate) fn is_sent(&self) -> bool
        ensures { result ≡ is_sent self.now }
    {
        match self {
            Attempt::Refused => false,
            Attempt::Sent(_) | Attempt::SentBare => true,
        }
    }

    /// The receipt of a batch that was sent with its CMD_SYNC, if it was.
    pub(crate) fn receipt(&self) -> Option<&Receipt>
        ensures { MatchOption result ((receipt : ReceiptValue)
            → self.now ≢ Attempt.Sent receipt) (λ r. self.now ≡ Attempt.Sent r.now) }
    {
        match self {
            Attempt::Sent(receipt) => Some(receipt),
            Attempt::Refused | Attempt::SentBare => None,
        }
    }
}

/// Tries once to reserve a batch, and publishes it at once.
pub(crate) fn send_once(
    sender: Sender,
    ring: &Ring,
    batch: &Batch,
    closes: bool,
) -> (Sender, Attempt)
    requires { sender.ring ≡ ring.now }
    ensures tried { HasTried batch.now closes sender result.0 result.1 }
    ensures ring { result.0.ring ≡ sender.ring }
    ensures id { result.0.number ≡ sender.number }
{
    if closes {
        match sender.reserve(ring, batch) {
            Ok(reservation) => {
                let (sender, receipt) = reservation.publish(ring);
                (sender, Attempt::Sent(receipt))
            }
            Err(refused) => (refused.sender, Attempt::Refused),
        }
    } else {
        match sender.reserve_bare(ring, batch) {
            Ok(reservation) => (reservation.publish(ring), Attempt::SentBare),
            Err(refused) => (refused.sender, Attempt::Refused),
        }
    }
}
