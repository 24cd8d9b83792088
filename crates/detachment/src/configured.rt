//! A stream whose configuration's commands are complete, and whose endpoint has ATS.
ghost use Rattle.std.specs.Prelude.{◌≡◌, ◌≤◌, IfOk, IfErr};
ghost use Rattle.ring.specs.sender.GoingOn.{WentOn};
ghost use Rattle.detachment.specs.Values.{IsConfigured, IsLeaving, endpoint_value};
ghost use Rattle.detachment.specs.Sending.{HasSentEndpoint, EndpointIsUnsent};

use crate::detachment::Detachment;
use crate::leaving::Leaving;
use crate::unsent::Unsent;
use cmdcodec::Sid;
use ring::{Receipt, Ring, Sender};
use std::marker::Model;
use std::snapshot::Snapshot;

/// A stream whose configuration's commands are complete: its sender was told so. Its endpoint has ATS, so the
/// command for it comes next (own).
#[derive(Drop)]
pub struct Configured {
    pub(crate) stream: Detachment,
    pub(crate) receipt: Receipt,
    /// The sender once it was told, for clauses: it has no bytes.
    pub(crate) told: Snapshot<Sender>,
}

impl Model for Configured {
    ghost use Rattle.detachment.specs.Values.{ConfigurationValue, IsConfigured, configuration_value};

    ghost Value = { ConfigurationValue };

    ghost view = { λ c. configuration_value c.stream c.receipt c.told.value };

    ghost invariant = { λ c. IsConfigured (configuration_value c.stream c.receipt c.told.value) };
}

impl Configured {
    /// Returns the stream.
    pub fn sid(&self) -> Sid
        ensures { result ≡ self.now.stream.sid }
    {
        self.stream.sid()
    }

    /// A witness that the commands are applied in the run that the sender knew. It does nothing.
    pub fn commands_are_applied(&self)
        ensures { IsConfigured self.now }
    {
        let _ = &self.stream;
    }

    /// Sends the command for the endpoint with its CMD_SYNC, as `Sender::send` does: with at most `tries` tries, 1
    /// or more (own).
    ///
    /// Errors: the cause of the last try (Q4, Q5, Q1, Q2, Q3), with the sender and `self`.
    pub fn send(
        self,
        ring: &Ring,
        sender: Sender,
        tries: u32,
    ) -> Result<(Sender, Leaving), Unsent<Configured>>
        requires ring { sender.ring ≡ ring.now }
        requires same_sender { WentOn self.sender sender }
        requires tries { 1 ≤ tries }
        ensures sent { IfOk result (λ r. HasSentEndpoint self tries sender r.0 r.1) }
        ensures ordered { IfOk result (λ r. IsLeaving r.1) }
        ensures went_on { IfOk result (λ r. WentOn sender r.0) }
        ensures may_look { IfOk result (λ r. WentOn r.1.sender r.0) }
        ensures refused { IfErr result (λ e. EndpointIsUnsent self tries sender e.refused) }
        ensures unsent { IfErr result (λ e. e.step ≡ self) }
        ensures given_back { IfErr result (λ e. WentOn sender e.refused.sender) }
        ensures may_send { IfErr result (λ e. WentOn e.step.sender e.refused.sender) }
    {
        let batch = self.stream.endpoint().unwrap();
        match sender.send(ring, &batch, tries) {
            Ok((sender, endpoint)) => {
                let leaving = self.leaving(endpoint, &sender);
                leaving.command_is_behind();
                Ok((sender, leaving))
            }
            Err(refused) => Err(Unsent {
                step: self,
                refused,
            }),
        }
    }

    /// Its command for the endpoint is sent.
    fn leaving(self, endpoint: Receipt, sender: &Sender) -> Leaving
        requires { IsLeaving (endpoint_value self.stream self.configuration endpoint sender.now) }
        ensures { result ≡ endpoint_value self.stream self.configuration endpoint sender.now }
    {
        let Configured {
            stream,
            receipt,
            told: _,
        } = self;
        Leaving {
            stream,
            configuration: receipt,
            endpoint,
            sent: Snapshot::of(sender),
        }
    }
}
