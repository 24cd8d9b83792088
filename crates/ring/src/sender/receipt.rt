//! What a sender gets for a batch that it published.
ghost use Rattle.std.specs.Prelude.{◌≡◌};

use std::marker::Model;

/// Names a closing CMD_SYNC by its sender and its number among that sender's.
#[derive(Clone, Copy, Debug, PartialEq, Eq)]
pub struct Receipt {
    pub(crate) sender: u32,
    pub(crate) number: u32,
}

impl Model for Receipt {
    ghost use Rattle.ring.specs.sender.Senders.{ReceiptValue};

    ghost Value = { ReceiptValue };

    ghost view = { λ r. record { sender = r.sender; number = r.number } };

    ghost inverse = { λ r. record { sender = r.sender; number = r.number } };
}

impl Receipt {
    /// Returns the number of the sender, from 0.
    pub fn sender(&self) -> u32
        ensures { result ≡ self.now.sender }
    {
        self.sender
    }

    /// Returns the number of the CMD_SYNC, from 1: its MSIDATA.
    pub fn number(&self) -> u32
        ensures { result ≡ self.now.number }
    {
        self.number
    }
}
