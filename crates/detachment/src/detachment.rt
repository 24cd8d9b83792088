//! A stream that is to be taken away from its device.
ghost use Rattle.std.specs.Prelude.{◌≡◌, ◌≤◌, true, All, IfOk, IfErr, IfSome};
ghost use Rattle.std.specs.Option.{SomeIff};
ghost use Rattle.smmu_features.specs.Commands.{IsLegalFor};
ghost use Rattle.ring.specs.sender.GoingOn.{WentOn};
ghost use Rattle.detachment.specs.Commands.{has_ats, configuration_words, endpoint_words};
ghost use Rattle.detachment.specs.Values.{IsConfiguring, configuration_value};
ghost use Rattle.detachment.specs.Sending.{HasSentConfiguration, ConfigurationIsUnsent};

use crate::configuring::Configuring;
use crate::unsent::Unsent;
use batch::Batch;
use cmdcodec::{Command, Page, Sid, Size, Ssid, encode};
use ring::{Receipt, Ring, Sender};
use smmu_features::Smmu;
use std::marker::Model;
use std::snapshot::Snapshot;

/// `Size` of an ATC_INV for all `2^52` pages.
const SIZE_OF_ALL: u64 = 52;

/// A stream that is to be taken away from its device (own).
#[derive(Clone, Copy, Debug)]
pub struct Detachment {
    sid: Sid,
    /// What its SMMU has.
    smmu: Smmu,
    /// Whether its endpoint has ATS.
    ats: bool,
}

impl Model for Detachment {
    ghost use Rattle.detachment.specs.Commands.{Stream};

    ghost Value = { Stream };

    ghost view = { λ d. record { sid = d.sid; smmu = d.smmu; ats = d.ats } };

    ghost inverse = { λ stream. record { sid = stream.sid; smmu = stream.smmu; ats = stream.ats } };
}

impl Detachment {
    /// Of this stream of an SMMU; `ats` says whether its endpoint caches translations (PCIe ATS). Nothing is sent.
    pub fn new(sid: Sid, smmu: &Smmu, ats: bool) -> Detachment
        ensures { result ≡ record { sid = sid; smmu = smmu.now; ats = ats } }
    {
        Detachment {
            sid,
            smmu: *smmu,
            ats,
        }
    }

    /// Returns the stream.
    pub fn sid(&self) -> Sid
        ensures { result ≡ self.now.sid }
    {
        self.sid
    }

    /// Whether its endpoint caches translations: the SMMU has ATS (SMMU_IDR0.ATS), and so has the endpoint.
    pub fn has_ats(&self) -> bool
        ensures { result ≡ has_ats self.now }
    {
        self.smmu.ats && self.ats
    }

    /// Returns the commands for its configuration, which are to be complete before its endpoint's are sent:
    /// CMD_CFGI_STE with Leaf 1, and CMD_CFGI_CD_ALL if the SMMU has stage 1.
    pub fn configuration(&self) -> Batch
        ensures exact { result ≡ configuration_words self.now }
        ensures legal { All (IsLegalFor self.now.smmu) result }
    {
        let sid = self.sid;
        let entry = encode(&Command::CfgiSte { sid, leaf: true });
        let mut batch = Batch::new(entry).unwrap();
        if self.smmu.stage_1 {
            let descriptors = encode(&Command::CfgiCdAll { sid });
            batch.push_raw(descriptors).unwrap();
        }
        batch
    }

    /// Returns the command for its endpoint, if that caches translations: CMD_ATC_INV with SSV 0, for all pages.
    pub fn endpoint(&self) -> Option<Batch>
        ensures exact { SomeIff result (has_ats self.now ≡ true) (endpoint_words self.now) }
        ensures legal { IfSome result (λ batch. All (IsLegalFor self.now.smmu) batch) }
    {
        if !self.has_ats() {
            return None;
        }
        let pages = encode(&Command::AtcInv {
            sid: self.sid,
            ssv: false,
            ssid: Ssid::new(0).unwrap(),
            global: false,
            size: Size::new(SIZE_OF_ALL).unwrap(),
            page: Page::new(0).unwrap(),
        });
        Some(Batch::new(pages).unwrap())
    }

    /// Sends the commands for the configuration with their CMD_SYNC, as `Sender::send` does: with at most `tries`
    /// tries, 1 or more (own).
    ///
    /// Errors: the cause of the last try (Q4, Q5, Q1, Q2, Q3), with the sender and `self`.
    pub fn send(
        self,
        ring: &Ring,
        sender: Sender,
        tries: u32,
    ) -> Result<(Sender, Configuring), Unsent<Detachment>>
        requires ring { sender.ring ≡ ring.now }
        requires tries { 1 ≤ tries }
        ensures sent { IfOk result (λ r. HasSentConfiguration self tries sender r.0 r.1) }
        ensures reserved { IfOk result (λ r. IsConfiguring r.1) }
        ensures went_on { IfOk result (λ r. WentOn sender r.0) }
        ensures may_look { IfOk result (λ r. WentOn r.1.sender r.0) }
        ensures refused { IfErr result (λ e. ConfigurationIsUnsent self tries sender e.refused) }
        ensures unsent { IfErr result (λ e. e.step ≡ self) }
        ensures given_back { IfErr result (λ e. WentOn sender e.refused.sender) }
    {
        match sender.send(ring, &self.configuration(), tries) {
            Ok((sender, receipt)) => {
                let configuring = self.configuring(receipt, &sender);
                configuring.commands_are_reserved();
                Ok((sender, configuring))
            }
            Err(refused) => Err(Unsent {
                step: self,
                refused,
            }),
        }
    }

    /// Its commands for the configuration are sent.
    fn configuring(self, receipt: Receipt, sender: &Sender) -> Configuring
        requires { IsConfiguring (configuration_value self receipt sender.now) }
        ensures { result ≡ configuration_value self receipt sender.now }
    {
        Configuring {
            stream: self,
            receipt,
            sent: Snapshot::of(sender),
        }
    }
}
