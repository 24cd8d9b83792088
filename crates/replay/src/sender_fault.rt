//! Why a line of a sender ends the run.
ghost use Rattle.std.specs.Prelude.{◌≡◌, ◌<◌, None, true, false};
ghost use Rattle.simulator.specs.queue.Seated.{ring_in};
ghost use Rattle.simulator.specs.Standing.{Tells, HasOpen as IsOpen};
ghost use Rattle.replay.specs.effects.SenderFaults.{sender_label, settled_fault, reserved_fault};

use simulator::Simulator;

/// Why a line of a sender ends the run: the first fault that applies.
#[derive(Clone, Copy, Debug, PartialEq, Eq)]
pub(crate) enum SenderFault {
    /// The ring has no sender of this number.
    NoSender,
    /// The sender has a reservation that isn't published.
    HasOpen,
    /// The sender has no such reservation.
    HasNoneOpen,
}

impl SenderFault {
    pub(crate) fn label(self) -> &'static str
        ensures { result.now ≡ sender_label self }
    {
        match self {
            SenderFault::NoSender => "no sender",
            SenderFault::HasOpen => "sender open",
            SenderFault::HasNoneOpen => "sender not open",
        }
    }
}

/// The fault of a line that needs a sender without an open reservation, if any.
pub(crate) fn settled_fault(simulator: &Simulator, sender: u32) -> Option<SenderFault>
    ensures told { Tells simulator.now (λ state. result ≡ settled_fault sender state) }
    ensures there { result ≡ None → sender < (ring_in simulator.now.queue).senders }
    ensures settled { result ≡ None → IsOpen simulator.now sender false }
{
    if !simulator.has_sender(sender) {
        Some(SenderFault::NoSender)
    } else if simulator.is_open(sender) {
        Some(SenderFault::HasOpen)
    } else {
        None
    }
}

/// The fault of a line that needs a sender with an open reservation, if any.
pub(crate) fn reserved_fault(simulator: &Simulator, sender: u32) -> Option<SenderFault>
    ensures told { Tells simulator.now (λ state. result ≡ reserved_fault sender state) }
    ensures there { result ≡ None → sender < (ring_in simulator.now.queue).senders }
    ensures reserved { result ≡ None → IsOpen simulator.now sender true }
{
    if !simulator.has_sender(sender) {
        Some(SenderFault::NoSender)
    } else if simulator.is_open(sender) {
        None
    } else {
        Some(SenderFault::HasNoneOpen)
    }
}
