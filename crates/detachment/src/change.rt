//! A change of stage 2 whose commands are to be sent.
ghost use Rattle.std.specs.Prelude.{◌≡◌, ◌≤◌, true, All, Some, None, Ok, Err, IfOk, IfErr, IfSome, IfNone};
ghost use Rattle.smmu_features.specs.Commands.{IsLegalFor};
ghost use Rattle.invalidations.specs.Plans.{refusal_of};
ghost use Rattle.invalidations.specs.declared.fault.InvalidationFault.{InvalidationFault};
ghost use Rattle.ring.specs.sender.GoingOn.{WentOn};
ghost use Rattle.ring.specs.sender.Sending.{IsGivenUpWith};
ghost use Rattle.detachment.specs.Changes.{change_of, change_words, words_behind, change_refusal, unmade, is_stage_2, change_value, HasSentChange, IsChanging};

use crate::change_fault::ChangeFault;
use crate::changing::Stage2Changing;
use crate::unsent::Unsent;
use batch::Batch;
use cmdcodec::{Command, encode};
use invalidations::{
    Body, Commands, Invalidation, InvalidationFault, Policy, Space,
    invalidations_reach_their_bytes, served_words_are_legal,
};
use ring::{Receipt, Ring, Sender};
use smmu_features::Smmu;
use std::marker::Model;
use std::snapshot::Snapshot;

/// The most commands of a batch.
const MOST_COMMANDS: u64 = 63;

/// A change of stage 2, beneath a stage 1 that may be nested in it, whose commands are to be sent (own).
#[derive(Clone, Copy, Debug)]
pub struct Stage2Change {
    invalidation: Invalidation,
    smmu: Smmu,
    policy: Policy,
}

impl Model for Stage2Change {
    ghost use Rattle.detachment.specs.Changes.{Change, IsChange};

    ghost Value = { Change };

    ghost view = { λ c. record { invalidation = c.invalidation; smmu = c.smmu; policy = c.policy } };

    ghost inverse = { λ c. record { invalidation = c.invalidation; smmu = c.smmu; policy = c.policy } };

    ghost invariant = { λ c. IsChange (record { invalidation = c.invalidation; smmu = c.smmu; policy = c.policy }) };
}

impl Stage2Change {
    /// Of what changed at stage 2. Its commands are one batch: where more than `most_commands`, or than 63, are needed,
    /// everything of the VMID is invalidated. Nothing is sent.
    ///
    /// Errors: the first that applies of `OtherStage`, `Unsupported`, `PastEnd` and `NoByte`.
    pub fn new(
        invalidation: &Invalidation,
        smmu: &Smmu,
        policy: &Policy,
    ) -> Result<Stage2Change, ChangeFault>
        ensures refused { IfSome (change_refusal (change_of invalidation.now smmu.now policy.now))
            (λ fault. result ≡ Err fault) }
        ensures made { IfNone (change_refusal (change_of invalidation.now smmu.now policy.now))
            (result ≡ Ok (change_of invalidation.now smmu.now policy.now)) }
    {
        if !is_stage_2(invalidation.space) {
            return Err(ChangeFault::OtherStage);
        }
        let policy = Policy {
            most_commands: policy.most_commands.min(MOST_COMMANDS),
            ..*policy
        };
        let mut commands = match Commands::new(invalidation, smmu, &policy) {
            Ok(commands) => commands,
            Err(InvalidationFault::Unsupported) => return Err(ChangeFault::Unsupported),
            Err(InvalidationFault::PastEnd) => return Err(ChangeFault::PastEnd),
        };
        if commands.next().is_none() {
            return Err(ChangeFault::NoByte);
        }
        Ok(Stage2Change {
            invalidation: *invalidation,
            smmu: *smmu,
            policy,
        })
    }

    /// Returns its commands, which are to be complete before stage 1 behind it is invalidated.
    pub fn commands(&self) -> Batch
        ensures exact { result ≡ change_words self.now }
        ensures legal { All (IsLegalFor self.now.smmu) result }
    {
        invalidations_reach_their_bytes();
        served_words_are_legal();
        let mut commands = Commands::new(&self.invalidation, &self.smmu, &self.policy).unwrap();
        let mut body = Body::new();
        commands.fill(&mut body);
        Batch::from_raws(body.as_slice()).unwrap()
    }

    /// Sends its commands with their CMD_SYNC, as `Sender::send` does: with at most `tries` tries, 1 or more (own).
    ///
    /// Errors: the cause of the last try (Q4, Q5, Q1, Q2, Q3), with the sender and `self`.
    pub fn send(
        self,
        ring: &Ring,
        sender: Sender,
        tries: u32,
    ) -> Result<(Sender, Stage2Changing), Unsent<Stage2Change>>
        requires ring { sender.ring ≡ ring.now }
        requires tries { 1 ≤ tries }
        ensures sent { IfOk result (λ r. HasSentChange self tries sender r.0 r.1) }
        ensures reserved { IfOk result (λ r. IsChanging r.1) }
        ensures went_on { IfOk result (λ r. WentOn sender r.0) }
        ensures may_look { IfOk result (λ r. WentOn r.1.sender r.0) }
        ensures refused { IfErr result
            (λ e. IsGivenUpWith (change_words self) true tries sender e.refused) }
        ensures unsent { IfErr result (λ e. e.step ≡ self) }
        ensures given_back { IfErr result (λ e. WentOn sender e.refused.sender) }
    {
        match sender.send(ring, &self.commands(), tries) {
            Ok((sender, receipt)) => {
                let changing = self.changing(receipt, &sender);
                changing.commands_are_reserved();
                Ok((sender, changing))
            }
            Err(refused) => Err(Unsent {
                step: self,
                refused,
            }),
        }
    }

    /// The command for stage 1 behind the change, if the SMMU has stage 1.
    pub(crate) fn stage_1(&self) -> Option<Batch>
        ensures exact { result ≡ words_behind self.now }
        ensures legal { IfSome result (λ batch. All (IsLegalFor self.now.smmu) batch) }
    {
        served_words_are_legal();
        match self.invalidation.space {
            Space::Stage2 { vmid } if self.smmu.stage_1 => {
                Some(Batch::new(encode(&Command::TlbiNhAll { vmid })).unwrap())
            }
            _ => None,
        }
    }

    /// Its commands are sent.
    fn changing(self, receipt: Receipt, sender: &Sender) -> Stage2Changing
        requires { IsChanging (change_value self receipt sender.now) }
        ensures { result ≡ change_value self receipt sender.now }
    {
        Stage2Changing {
            change: self,
            receipt,
            sent: Snapshot::of(sender),
        }
    }
}

fn is_stage_2(space: Space) -> bool
    ensures { result ≡ is_stage_2 space }
{
    matches!(space, Space::Stage2 { .. })
}
