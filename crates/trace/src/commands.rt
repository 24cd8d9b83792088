//! The commands of a log.
ghost use Rattle.std.specs.Prelude.{◌≡◌, ◌↔◌, IsTrue, Some};
ghost use Rattle.cmdcodec.specs.declared.raw.Raw.{Raw as RawOf};
ghost use Rattle.trace.specs.declared.request.Request.TheVariants.{Acknowledge as AcknowledgeOf};
ghost use Rattle.trace.specs.declared.request.Request.TheVariants.{Command as CommandOf};
ghost use Rattle.trace.specs.Serving.{Does, verdict_reply};

use crate::log_fault::LogFault;
use crate::reply::Reply;
use crate::state::Trace;
use cmdcodec::Raw;
use engine::{Remedy, StepAnswer, Verdict};
use ringcore::MOST_RESERVED;
use transactions::TrackedVerdict;

fn reply_of(verdict: TrackedVerdict) -> Reply
    ensures { result ≡ verdict_reply verdict }
{
    match verdict {
        TrackedVerdict::Judged(Verdict::Applied { command, removed }) => {
            Reply::Step(StepAnswer::Applied { command, removed })
        }
        TrackedVerdict::Judged(Verdict::Stopped(ill)) => Reply::Step(StepAnswer::Stopped(ill)),
        TrackedVerdict::Judged(Verdict::Replaced(ill)) => Reply::Step(StepAnswer::Replaced(ill)),
        TrackedVerdict::Waiting { transactions } => Reply::Waiting { transactions },
    }
}

/// Whether these words may come, given those at which consumption stopped.
fn may_come_next(raw: Raw, awaited: Option<Raw>) -> bool
    ensures { IsTrue result ↔ ((next : RawOf) → awaited ≡ Some next → raw ≡ next) }
{
    match awaited {
        None => true,
        Some(next) => raw == next,
    }
}

impl Trace {
    /// The queue takes a command, unless that has to wait.
    pub(crate) fn command(&mut self, raw: Raw) -> Result<Reply, LogFault>
        ensures { Does (CommandOf raw) self.old result self.new }
    {
        let unit = self.unit.unit();
        if unit.stopped() {
            return Ok(Reply::Step(StepAnswer::StillStopped));
        }
        if unit.counts().taken() == MOST_RESERVED {
            return Ok(Reply::Step(StepAnswer::Exhausted));
        }
        if !may_come_next(raw, unit.awaited()) {
            return Err(LogFault::OtherCommand);
        }
        Ok(reply_of(self.unit.judge(raw)))
    }

    /// Software acknowledges an error stop.
    pub(crate) fn acknowledge(&mut self, gerrorn: u32, remedy: Remedy) -> Result<Reply, LogFault>
        ensures { Does (AcknowledgeOf gerrorn remedy) self.old result self.new }
    {
        match self.unit.acknowledge(gerrorn, remedy) {
            Ok(()) => Ok(Reply::Acknowledged),
            Err(fault) => Ok(Reply::NotAcknowledged(fault)),
        }
    }
}
