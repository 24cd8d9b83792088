//! What C gets of an answer, flat.
ghost use Rattle.std.specs.Prelude.{◌≡◌};
ghost use Rattle.smmuq_c.specs.Judging.{verdict_words};
ghost use Rattle.smmuq_c.specs.Entries.{entry_words};
ghost use Rattle.smmuq_c.specs.Registers.{count_words};
ghost use Rattle.smmuq_c.specs.Runs.{run_words, register_words};
ghost use Rattle.smmuq_c.specs.Sends.{control_words};
ghost use Rattle.smmuq_c.specs.TrackingCalls.{transaction_counts};

use crate::status::ill_number;
use caches::Entry;
use engine::{Counts, Judgement, Registers, RunAnswer};
use qindex::Control;
use transactions::{OutstandingCounts, TrackedJudgement};

/// What a command did.
#[repr(C)]
#[derive(Clone, Copy)]
pub struct VerdictWords {
    /// How many entries it removed.
    pub removed: u32,
    /// The number of what is illegal in it, or 0.
    pub ill: u32,
    /// For how many transactions it has to wait, if it is a CMD_SYNC, or 0.
    pub waiting: u32,
}

impl VerdictWords {
    /// For a command that wasn't judged.
    pub(crate) const NONE: VerdictWords = VerdictWords {
        removed: 0,
        ill: 0,
        waiting: 0,
    };

    pub(crate) fn of(judgement: TrackedJudgement) -> VerdictWords
        ensures { result ≡ verdict_words judgement }
    {
        match judgement {
            TrackedJudgement::Judged(Judgement::Applied { removed }) => VerdictWords {
                removed,
                ..VerdictWords::NONE
            },
            TrackedJudgement::Judged(Judgement::Stopped(ill) | Judgement::Replaced(ill)) =>
                VerdictWords {
                    ill: ill_number(ill),
                    ..VerdictWords::NONE
                },
            TrackedJudgement::Waiting { transactions } => VerdictWords {
                waiting: transactions,
                ..VerdictWords::NONE
            },
        }
    }
}

/// What is held under a tag.
#[repr(C)]
#[derive(Clone, Copy)]
pub struct Held {
    pub value: u64,
    /// How many commands were taken before it was filled.
    pub born: u64,
}

impl From<Entry> for Held {
    fn from(entry: Entry) -> Held
        ensures { result ≡ entry_words entry }
    {
        Held {
            value: entry.value,
            born: entry.born,
        }
    }
}

/// SMMU_CMDQ_CONS.ERR, SMMU_GERROR and SMMU_GERRORN.
#[repr(C)]
#[derive(Clone, Copy)]
pub struct Errors {
    pub err: u32,
    pub gerror: u32,
    pub gerrorn: u32,
}

impl Errors {
    /// Of CONS.ERR, GERROR and GERRORN.
    pub(crate) fn of(registers: (u32, u32, u32)) -> Errors
        ensures { result
            ≡ record { err = registers.0; gerror = registers.1; gerrorn = registers.2 } }
    {
        let (err, gerror, gerrorn) = registers;
        Errors {
            err,
            gerror,
            gerrorn,
        }
    }
}

/// The counts of the commands taken.
#[repr(C)]
#[derive(Clone, Copy)]
pub struct Tallies {
    pub applied: u64,
    pub replaced: u64,
    pub syncs: u64,
    pub removed: u64,
}

impl From<Counts> for Tallies {
    fn from(counts: Counts) -> Tallies
        ensures { result ≡ count_words counts }
    {
        Tallies {
            applied: counts.applied(),
            replaced: counts.replaced(),
            syncs: counts.syncs(),
            removed: counts.removed(),
        }
    }
}

/// How many transactions are outstanding.
#[repr(C)]
#[derive(Clone, Copy)]
pub struct TransactionCounts {
    pub outstanding: u32,
    /// Those of them that a CMD_SYNC waits for.
    pub covered: u32,
}

impl From<OutstandingCounts> for TransactionCounts {
    fn from(counts: OutstandingCounts) -> TransactionCounts
        ensures { result ≡ transaction_counts counts }
    {
        TransactionCounts {
            outstanding: counts.outstanding,
            covered: counts.covered,
        }
    }
}

/// What a run of the engine did.
#[repr(C)]
#[derive(Clone, Copy)]
pub struct RunWords {
    /// How many commands were applied.
    pub count: u32,
    /// How many entries they removed.
    pub removed: u32,
    /// The number of what is illegal in the command at which it stopped, or that was replaced; or 0.
    pub ill: u32,
}

impl RunWords {
    /// For a run that took nothing, and stopped at nothing.
    const NONE: RunWords = RunWords {
        count: 0,
        removed: 0,
        ill: 0,
    };
}

impl From<RunAnswer> for RunWords {
    fn from(answer: RunAnswer) -> RunWords
        ensures { result ≡ run_words answer }
    {
        match answer {
            RunAnswer::Applied { count, removed } => RunWords {
                count,
                removed,
                ill: 0,
            },
            RunAnswer::Stopped(ill) | RunAnswer::Replaced(ill) => RunWords {
                ill: ill_number(ill),
                ..RunWords::NONE
            },
            RunAnswer::Empty
            | RunAnswer::Drained
            | RunAnswer::Unwritten
            | RunAnswer::StillStopped
            | RunAnswer::Exhausted => RunWords::NONE,
        }
    }
}

/// SMMU_CMDQ_PROD, SMMU_CMDQ_CONS, SMMU_GERROR and SMMU_GERRORN at one moment.
#[repr(C)]
#[derive(Clone, Copy)]
pub struct RegisterWords {
    pub prod: u32,
    pub cons: u32,
    pub gerror: u32,
    pub gerrorn: u32,
}

impl From<Registers> for RegisterWords {
    fn from(registers: Registers) -> RegisterWords
        ensures { result ≡ register_words registers }
    {
        RegisterWords {
            prod: registers.prod,
            cons: registers.cons,
            gerror: registers.gerror,
            gerrorn: registers.gerrorn,
        }
    }
}

/// SMMU_CMDQ_PROD and SMMU_CMDQ_CONS.RD at one moment, and whether the ring is closed, 0 or 1.
#[repr(C)]
#[derive(Clone, Copy)]
pub struct ControlWords {
    pub prod: u32,
    pub cons: u32,
    pub closed: u32,
}

impl ControlWords {
    pub(crate) fn of(control: &Control) -> ControlWords
        ensures { result ≡ control_words control.now }
    {
        ControlWords {
            prod: control.prod.get(),
            cons: control.cons.get(),
            closed: u32::from(control.closed),
        }
    }
}
