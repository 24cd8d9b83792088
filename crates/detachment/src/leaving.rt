//! A stream whose endpoint's command is sent.
ghost use Rattle.std.specs.Prelude.{◌≡◌, Some, IfOk, IfErr, is_ok};
ghost use Rattle.ring.specs.sender.Senders.{HasAsked};
ghost use Rattle.ring.specs.sender.GoingOn.{WentOn};
ghost use Rattle.detachment.specs.Values.{IsLeaving, IsDetached, detached_value};

use crate::detached::Detached;
use crate::detachment::Detachment;
use cmdcodec::Sid;
use ring::{Receipt, Ring, Sender};
use ringcore::laws::consumer_trail;
use ringcore::world_law;
use std::marker::Model;
use std::snapshot::Snapshot;

/// A stream whose endpoint's command is sent, behind those for its configuration, with its CMD_SYNC, which isn't
/// known to be complete (own).
#[derive(Drop)]
pub struct Leaving {
    pub(crate) stream: Detachment,
    pub(crate) configuration: Receipt,
    pub(crate) endpoint: Receipt,
    /// The sender once it had sent it, for clauses: it has no bytes.
    pub(crate) sent: Snapshot<Sender>,
}

impl Model for Leaving {
    ghost use Rattle.detachment.specs.Values.{EndpointValue, IsLeaving, endpoint_value};

    ghost Value = { EndpointValue };

    ghost view = { λ e. endpoint_value e.stream e.configuration e.endpoint e.sent.value };

    ghost invariant = { λ e. IsLeaving (endpoint_value e.stream e.configuration e.endpoint e.sent.value) };
}

impl Leaving {
    /// Returns the stream.
    pub fn sid(&self) -> Sid
        ensures { result ≡ self.now.stream.sid }
    {
        self.stream.sid()
    }

    /// Returns the receipt of the CMD_SYNC behind the command.
    pub fn receipt(&self) -> Receipt
        ensures { result ≡ self.now.endpoint }
    {
        self.endpoint
    }

    /// A witness that the command is reserved behind a run in which those for the configuration are applied. It
    /// does nothing.
    pub fn command_is_behind(&self)
        ensures { IsLeaving self.now }
    {
        let _ = &self.stream;
    }

    /// Asks whether the CMD_SYNC is complete, by the completion cell of the sender that sent it (own).
    ///
    /// Errors: `self`, unchanged, if it isn't.
    pub fn look(self, ring: &Ring, sender: &mut Sender) -> Result<Detached, Leaving>
        requires ring { sender.old.ring ≡ ring.now }
        requires same_sender { WentOn self.sender sender.old }
        ensures asked { HasAsked self.endpoint.number sender.old sender.new (is_ok result) }
        ensures told { IfOk result (λ d. d
            ≡ detached_value self.stream self.configuration (Some self.endpoint) sender.new) }
        ensures detached { IfOk result IsDetached }
        ensures not_told { IfErr result (λ e. e ≡ self) }
        ensures went_on { WentOn sender.old sender.new }
        ensures may_look { IfErr result (λ e. WentOn e.sender sender.new) }
    {
        world_law();
        consumer_trail();
        let done = sender.is_done(ring, &self.endpoint);
        if !done {
            return Err(self);
        }
        sender.trail_stands_in_a_run();
        let Leaving {
            stream,
            configuration,
            endpoint,
            sent: _,
        } = self;
        let detached = Detached {
            stream,
            configuration,
            endpoint: Some(endpoint),
            told: Snapshot::of(sender),
        };
        detached.order_was_kept();
        Ok(detached)
    }
}
