//! A change of stage 2 whose commands are sent.
ghost use Rattle.std.specs.Prelude.{◌≡◌, IfOk, IfErr, is_ok};
ghost use Rattle.ring.specs.sender.Senders.{HasAsked};
ghost use Rattle.ring.specs.sender.GoingOn.{WentOn};
ghost use Rattle.detachment.specs.Changes.{IsChanging, IsChanged};

use crate::change::Stage2Change;
use crate::changed::Stage2Changed;
use ring::{Receipt, Ring, Sender};
use ringcore::laws::consumer_trail;
use ringcore::world_law;
use std::marker::Model;
use std::snapshot::Snapshot;

/// A change of stage 2 whose commands are sent, with their CMD_SYNC, which isn't known to be complete (own).
#[derive(Drop)]
pub struct Stage2Changing {
    pub(crate) change: Stage2Change,
    pub(crate) receipt: Receipt,
    /// The sender once it had sent them, for clauses: it has no bytes.
    pub(crate) sent: Snapshot<Sender>,
}

impl Model for Stage2Changing {
    ghost use Rattle.detachment.specs.Changes.{ChangeValue, IsChanging, change_value};

    ghost Value = { ChangeValue };

    ghost view = { λ c. change_value c.change c.receipt c.sent.value };

    ghost invariant = { λ c. IsChanging (change_value c.change c.receipt c.sent.value) };
}

impl Stage2Changing {
    /// Returns the receipt of the CMD_SYNC behind the commands.
    pub fn receipt(&self) -> Receipt
        ensures { result ≡ self.now.sync }
    {
        self.receipt
    }

    /// A witness that the commands are reserved in the run that the sender knew. It does nothing.
    pub fn commands_are_reserved(&self)
        ensures { IsChanging self.now }
    {
        let _ = &self.change;
    }

    /// Asks whether the CMD_SYNC is complete, by the completion cell of the sender that sent it (own).
    ///
    /// Errors: `self`, unchanged, if it isn't.
    pub fn look(self, ring: &Ring, sender: &mut Sender) -> Result<Stage2Changed, Stage2Changing>
        requires ring { sender.old.ring ≡ ring.now }
        requires same_sender { WentOn self.sender sender.old }
        ensures asked { HasAsked self.sync.number sender.old sender.new (is_ok result) }
        ensures told { IfOk result (λ c. c ≡ record self { sender = sender.new }) }
        ensures applied { IfOk result IsChanged }
        ensures not_told { IfErr result (λ c. c ≡ self) }
        ensures went_on { WentOn sender.old sender.new }
        ensures may_look { IfErr result (λ c. WentOn c.sender sender.new) }
    {
        world_law();
        consumer_trail();
        let done = sender.is_done(ring, &self.receipt);
        if !done {
            return Err(self);
        }
        sender.trail_stands_in_a_run();
        let Stage2Changing {
            change,
            receipt,
            sent: _,
        } = self;
        let changed = Stage2Changed {
            change,
            receipt,
            told: Snapshot::of(sender),
        };
        changed.commands_are_applied();
        Ok(changed)
    }
}
