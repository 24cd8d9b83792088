//! The answers of the engine's steps.
use cmdcodec::{Command, Ill};

/// What a step of one command did.
#[derive(Clone, Copy, Debug, PartialEq, Eq)]
pub enum StepAnswer {
    /// Nothing is reserved.
    Empty,
    /// Nothing is reserved and the ring is closed, so nothing will be.
    Drained,
    /// The command at the head is reserved, but its sender hasn't handed it over.
    Unwritten,
    /// A legal command was applied, removed `removed` entries, and was completed.
    Applied { command: Command, removed: u32 },
    /// The command at the head is illegal, and consumption stopped there.
    Stopped(Ill),
    /// The illegal command that was to be replaced was completed without effect.
    Replaced(Ill),
    /// Consumption is stopped: nothing was done.
    StillStopped,
    /// `2^46` commands were taken, more than a ring ever has: nothing was done.
    Exhausted,
}

/// What a step of a run of commands did.
#[derive(Clone, Copy, Debug, PartialEq, Eq)]
pub enum RunAnswer {
    /// Nothing is reserved.
    Empty,
    /// Nothing is reserved and the ring is closed, so nothing will be.
    Drained,
    /// The command at the head is reserved, but its sender hasn't handed it over.
    Unwritten,
    /// `count` legal commands were applied, removed `removed` entries together, and were completed.
    Applied { count: u32, removed: u32 },
    /// The command at the head is illegal, and consumption stopped there.
    Stopped(Ill),
    /// The illegal command that was to be replaced was completed without effect.
    Replaced(Ill),
    /// Consumption is stopped: nothing was done.
    StillStopped,
    /// `2^46` commands were taken, more than a ring ever has: nothing was done.
    Exhausted,
}

/// The queue's registers at one moment.
#[derive(Clone, Copy, Debug, PartialEq, Eq)]
pub struct Registers {
    /// SMMU_CMDQ_PROD: the index in bits 19:0.
    pub prod: u32,
    /// SMMU_CMDQ_CONS: the index in bits 19:0, ERR in bits 30:24.
    pub cons: u32,
    /// SMMU_GERROR: CMDQ_ERR is bit 0; no other bit is ever set.
    pub gerror: u32,
    /// SMMU_GERRORN: CMDQ_ERR is bit 0; no other bit is ever set.
    pub gerrorn: u32,
}
