//! A stream whose configuration's commands are sent.
ghost use Rattle.std.specs.Prelude.{◌≡◌, true, false, None, IfOk, IfErr, is_ok};
ghost use Rattle.ring.specs.sender.Senders.{HasAsked};
ghost use Rattle.ring.specs.sender.GoingOn.{WentOn};
ghost use Rattle.detachment.specs.Commands.{has_ats};
ghost use Rattle.detachment.specs.Values.{IsConfiguring, IsConfigured, IsDetached, configuration_value, detached_value};
ghost use Rattle.detachment.specs.Looking.{IsNext, HasComeAsFar, MaySend};

use crate::configured::Configured;
use crate::detached::Detached;
use crate::detachment::Detachment;
use crate::next::Next;
use cmdcodec::Sid;
use ring::{Receipt, Ring, Sender};
use ringcore::laws::consumer_trail;
use ringcore::world_law;
use std::marker::Model;
use std::snapshot::Snapshot;

/// A stream whose configuration's commands are sent, with their CMD_SYNC, which isn't known to be complete (own).
#[derive(Drop)]
pub struct Configuring {
    pub(crate) stream: Detachment,
    pub(crate) receipt: Receipt,
    /// The sender once it had sent them, for clauses: it has no bytes.
    pub(crate) sent: Snapshot<Sender>,
}

impl Model for Configuring {
    ghost use Rattle.detachment.specs.Values.{ConfigurationValue, IsConfiguring, configuration_value};

    ghost Value = { ConfigurationValue };

    ghost view = { λ c. configuration_value c.stream c.receipt c.sent.value };

    ghost invariant = { λ c. IsConfiguring (configuration_value c.stream c.receipt c.sent.value) };
}

impl Configuring {
    /// Returns the stream.
    pub fn sid(&self) -> Sid
        ensures { result ≡ self.now.stream.sid }
    {
        self.stream.sid()
    }

    /// Returns the receipt of the CMD_SYNC behind the commands.
    pub fn receipt(&self) -> Receipt
        ensures { result ≡ self.now.configuration }
    {
        self.receipt
    }

    /// A witness that the commands are reserved in the run that the sender knew. It does nothing.
    pub fn commands_are_reserved(&self)
        ensures { IsConfiguring self.now }
    {
        let _ = &self.stream;
    }

    /// Asks whether the CMD_SYNC is complete, by the completion cell of the sender that sent it, and returns what is
    /// next (own).
    ///
    /// Errors: `self`, unchanged, if it isn't.
    pub fn look(self, ring: &Ring, sender: &mut Sender) -> Result<Next, Configuring>
        requires ring { sender.old.ring ≡ ring.now }
        requires same_sender { WentOn self.sender sender.old }
        ensures asked { HasAsked self.configuration.number sender.old sender.new (is_ok result) }
        ensures told { IfOk result (IsNext self sender.new) }
        ensures come_as_far { IfOk result HasComeAsFar }
        ensures not_told { IfErr result (λ c. c ≡ self) }
        ensures went_on { WentOn sender.old sender.new }
        ensures may_send { IfOk result (MaySend sender.new) }
        ensures may_look { IfErr result (λ c. WentOn c.sender sender.new) }
    {
        world_law();
        consumer_trail();
        let done = sender.is_done(ring, &self.receipt);
        if !done {
            return Err(self);
        }
        sender.trail_stands_in_a_run();
        if self.stream.has_ats() {
            let configured = self.configured(sender);
            configured.commands_are_applied();
            Ok(Next::Endpoint(configured))
        } else {
            let detached = self.detached(sender);
            detached.order_was_kept();
            Ok(Next::Nothing(detached))
        }
    }

    /// Its commands are complete, and its endpoint has ATS.
    fn configured(self, sender: &Sender) -> Configured
        requires { IsConfigured (configuration_value self.stream self.configuration sender.now) }
        ensures { result ≡ configuration_value self.stream self.configuration sender.now }
    {
        let Configuring {
            stream,
            receipt,
            sent: _,
        } = self;
        Configured {
            stream,
            receipt,
            told: Snapshot::of(sender),
        }
    }

    /// Its commands are complete, and its endpoint has no ATS.
    fn detached(self, sender: &Sender) -> Detached
        requires { IsDetached (detached_value self.stream self.configuration None sender.now) }
        ensures { result ≡ detached_value self.stream self.configuration None sender.now }
    {
        let Configuring {
            stream,
            receipt,
            sent: _,
        } = self;
        Detached {
            stream,
            configuration: receipt,
            endpoint: None,
            told: Snapshot::of(sender),
        }
    }
}
