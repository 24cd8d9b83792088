//! What all seats of a ring have done, at its end.
ghost use Rattle.std.specs.Prelude.{◌≡◌};

use std::marker::Model;

/// How many commands were reserved and taken, and whether the ring was closed. Only `Ring::finish` makes one.
#[derive(Clone, Copy, Debug, PartialEq, Eq)]
pub struct Summary {
    pub(crate) reserved: u64,
    pub(crate) taken: u64,
    pub(crate) closed: bool,
}

impl Model for Summary {
    ghost use Rattle.ring.specs.Finishing.{SummaryValue};

    ghost Value = { SummaryValue };

    ghost view = { λ s. record { reserved = s.reserved; taken = s.taken; closed = s.closed } };

    ghost inverse = { λ s. record { reserved = s.reserved; taken = s.taken; closed = s.closed } };
}

impl Summary {
    /// Returns how many commands were reserved, including closing CMD_SYNCs.
    pub fn reserved(&self) -> u64
        ensures { result ≡ self.now.reserved }
    {
        self.reserved
    }

    /// Returns how many of them were taken.
    pub fn taken(&self) -> u64
        ensures { result ≡ self.now.taken }
    {
        self.taken
    }

    /// Whether the ring was closed.
    pub fn closed(&self) -> bool
        ensures { result ≡ self.now.closed }
    {
        self.closed
    }
}
