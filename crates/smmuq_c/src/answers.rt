//! Answers of the libraries below, as statuses.
ghost use Rattle.std.specs.Prelude.{◌≡◌, IfSome};
ghost use Rattle.smmuq_c.specs.Judging.{verdict_status, fault_status};
ghost use Rattle.smmuq_c.specs.Entries.{fill_status, entry_status, entry_words};
ghost use Rattle.smmuq_c.specs.Registers.{acknowledgement_status};
ghost use Rattle.smmuq_c.specs.Runs.{run_status};
ghost use Rattle.smmuq_c.specs.Renewing.{renewal_status};
ghost use Rattle.smmuq_c.specs.TrackingCalls.{walk_status, begin_status};
ghost use Rattle.smmuq_c.specs.Kept.{IsKept};

use crate::status::Status;
use crate::words::Held;
use caches::{CacheFault, Entry};
use engine::{AckFault, JudgeFault, Judgement, RunAnswer};
use renewal::RenewalFault;
use transactions::{BeginFault, TrackedJudgement, WalkFault};

pub(crate) fn verdict_status(judgement: TrackedJudgement) -> Status
    ensures { result ≡ verdict_status judgement }
{
    match judgement {
        TrackedJudgement::Judged(Judgement::Applied { .. }) => Status::Done,
        TrackedJudgement::Judged(Judgement::Stopped(ill)) => Status::Illegal(ill),
        TrackedJudgement::Judged(Judgement::Replaced(_)) => Status::Replaced,
        TrackedJudgement::Waiting { .. } => Status::SyncWaiting,
    }
}

impl From<JudgeFault> for Status {
    fn from(fault: JudgeFault) -> Status
        ensures { result ≡ fault_status fault }
    {
        match fault {
            JudgeFault::StillStopped => Status::StillStopped,
            JudgeFault::OtherCommand => Status::OtherCommand,
            JudgeFault::Exhausted => Status::Exhausted,
        }
    }
}

impl From<RunAnswer> for Status {
    fn from(answer: RunAnswer) -> Status
        ensures { result ≡ run_status answer }
    {
        match answer {
            RunAnswer::Empty => Status::RingEmpty,
            RunAnswer::Drained => Status::RingDrained,
            RunAnswer::Unwritten => Status::RingUnwritten,
            RunAnswer::Applied { .. } => Status::Done,
            RunAnswer::Stopped(ill) => Status::Illegal(ill),
            RunAnswer::Replaced(_) => Status::Replaced,
            RunAnswer::StillStopped => Status::StillStopped,
            RunAnswer::Exhausted => Status::Exhausted,
        }
    }
}

impl From<RenewalFault> for Status {
    fn from(fault: RenewalFault) -> Status
        ensures { result ≡ renewal_status fault }
    {
        match fault {
            RenewalFault::Waiting => Status::Waiting,
            RenewalFault::Ring(fault) => Status::Ring(fault),
            RenewalFault::Caches(fault) => Status::Cache(fault),
        }
    }
}

impl From<WalkFault> for Status {
    fn from(fault: WalkFault) -> Status
        ensures { result ≡ walk_status fault }
    {
        match fault {
            WalkFault::Overtaken => Status::Overtaken,
            WalkFault::TooOld => Status::TooOld,
            WalkFault::OtherUnit => Status::OtherWalk,
            WalkFault::Refused(fault) => Status::Cache(fault),
        }
    }
}

impl From<BeginFault> for Status {
    fn from(fault: BeginFault) -> Status
        ensures { result ≡ begin_status fault }
    {
        match fault {
            BeginFault::NotHeld => Status::NotHeld,
            BeginFault::Full => Status::TransactionsFull,
            BeginFault::Walked(fault) => Status::from(fault),
        }
    }
}

pub(crate) fn fill_status(filled: Result<Option<Entry>, CacheFault>) -> Status
    ensures { result ≡ fill_status filled }
{
    match filled {
        Ok(_) => Status::Done,
        Err(fault) => Status::Cache(fault),
    }
}

/// Tells the entry, if there is one.
pub(crate) fn tell_entry(entry: Option<Entry>, told: &mut Held) -> Status
    ensures status { result ≡ entry_status entry }
    ensures told { IfSome entry (λ entry. told.new ≡ entry_words entry) }
    ensures kept { IsKept result told.old told.new }
{
    match entry {
        Some(entry) => {
            *told = Held::from(entry);
            Status::Done
        }
        None => Status::NotHeld,
    }
}

pub(crate) fn acknowledgement_status(answer: Result<(), AckFault>) -> Status
    ensures { result ≡ acknowledgement_status answer }
{
    match answer {
        Ok(()) => Status::Done,
        Err(fault) => Status::Acknowledgement(fault),
    }
}
