//! A change of stage 2 whose commands are complete.
ghost use Rattle.std.specs.Prelude.{◌≡◌, All, IfSome};
ghost use Rattle.smmu_features.specs.Commands.{IsLegalFor};
ghost use Rattle.detachment.specs.Changes.{words_behind, IsChanged};

use crate::change::Stage2Change;
use batch::Batch;
use ring::{Receipt, Sender};
use std::marker::Model;
use std::snapshot::Snapshot;

/// A change of stage 2 whose commands are complete: its sender was told so (own).
#[derive(Drop)]
pub struct Stage2Changed {
    pub(crate) change: Stage2Change,
    pub(crate) receipt: Receipt,
    /// The sender once it was told, for clauses: it has no bytes.
    pub(crate) told: Snapshot<Sender>,
}

impl Model for Stage2Changed {
    ghost use Rattle.detachment.specs.Changes.{ChangeValue, IsChanged, change_value};

    ghost Value = { ChangeValue };

    ghost view = { λ c. change_value c.change c.receipt c.told.value };

    ghost invariant = { λ c. IsChanged (change_value c.change c.receipt c.told.value) };
}

impl Stage2Changed {
    /// A witness that the commands are applied in the run that the sender knew. It does nothing.
    pub fn commands_are_applied(&self)
        ensures { IsChanged self.now }
    {
        let _ = &self.change;
    }

    /// Returns the command for stage 1 behind the change, CMD_TLBI_NH_ALL of its VMID, or `None` for an SMMU without
    /// stage 1. Only this value has it: in front of the same CMD_SYNC as the change's commands it may act first, and a
    /// translation of stage 1 be made again by the old stage 2. What endpoints cache of it goes behind that.
    pub fn stage_1(&self) -> Option<Batch>
        ensures exact { result ≡ words_behind self.now.change }
        ensures legal { IfSome result (λ batch. All (IsLegalFor self.now.change.smmu) batch) }
    {
        self.change.stage_1()
    }
}
