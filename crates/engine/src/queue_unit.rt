//! A unit that serves a queue in memory that its owner may write meanwhile, as a guest's.
ghost use Rattle.std.specs.Prelude.{◌≡◌, ◌↔◌, [], Some, IfOk, IfSome, OnOk, OnErr, IsTrue};
ghost use Rattle.caches.specs.Held.{held};
ghost use Rattle.engine.specs.Stops.{command_queue_bit, word_of};
ghost use Rattle.engine.specs.Units.{StaysSettled, emptied};
ghost use Rattle.engine.specs.QueueUnits.{remedy_until_then, error_number, new_queue_unit, IsStoppedQueue, OnlyRegistersChanged, error_bit, acknowledged_bit, queue_err_of};
ghost use Rattle.engine.specs.QueueUnits.{acknowledged_with, IsQueueAcknowledgement, HasJudgedNext, IsJudgeRefusal};

use crate::global_errors::{command_queue_bit, word_of};
use crate::remedy::{AckFault, Remedy};
use crate::unit::Unit;
use crate::verdict::Judgement;
use caches::Caches;
use cmdcodec::Raw;
use ringcore::MOST_RESERVED;

/// What is to become of the illegal command at which consumption stopped, in a queue that its owner may write over
/// (this project's choice).
#[derive(Clone, Copy, Debug, PartialEq, Eq)]
pub enum StopRemedy {
    /// It comes next again, and is judged again.
    Retry,
    /// It comes next again, and is taken without effect.
    Replace,
    /// The words that come next decide: if they are the same, they are judged again; if somebody wrote over them, the old
    /// ones are taken without effect, and then the new ones are judged.
    Reread,
}

impl StopRemedy {
    /// Returns how a unit stands until the next words come. In a ring nobody writes over them, so there that is all.
    pub fn until_then(self) -> Remedy
        ensures { result ≡ remedy_until_then self }
    {
        match self {
            StopRemedy::Retry | StopRemedy::Reread => Remedy::Retry,
            StopRemedy::Replace => Remedy::Replace,
        }
    }
}

/// Why words aren't judged: the first that applies. Nothing changes.
#[derive(Clone, Copy, Debug, PartialEq, Eq)]
pub enum JudgeFault {
    /// Consumption is stopped, and nobody acknowledged that.
    StillStopped,
    /// The words aren't those at which it stopped, which come next.
    OtherCommand,
    /// `2^46` commands were taken.
    Exhausted,
}

/// An error of the command queue that whoever serves it finds itself. The numbers are those of SMMU_CMDQ_CONS.ERR.
#[derive(Clone, Copy, Debug, PartialEq, Eq)]
pub enum QueueError {
    /// CERROR_ILL, 1: a command that this SMMU calls illegal by its ID registers.
    Illegal,
    /// CERROR_ABT, 2: a command couldn't be read.
    Abort,
    /// CERROR_ATC_INV_SYNC, 3: an endpoint didn't answer an ATC_INV before a CMD_SYNC.
    AtcInvSync,
}

impl QueueError {
    /// Its number in SMMU_CMDQ_CONS.ERR.
    pub fn number(self) -> u32
        ensures { result ≡ error_number self }
    {
        match self {
            QueueError::Illegal => 1,
            QueueError::Abort => 2,
            QueueError::AtcInvSync => 3,
        }
    }
}

/// A unit that tests what `Unit::judge_words` requires, knows of words that were written over, and stops for errors that
/// whoever serves the queue finds.
#[derive(Drop)]
pub struct QueueUnit {
    pub unit: Unit,
    /// Whether the words that come next decide what becomes of those at which it stopped.
    pub rereads: bool,
    /// The error that was found and that nobody acknowledged.
    pub found: Option<QueueError>,
    /// Whether CMDQ_ERR of both registers is the other way round than the unit alone would have it.
    pub turned: bool,
}

impl QueueUnit {
    /// Creates one that has taken nothing, with these empty caches.
    pub fn new(caches: Caches) -> QueueUnit
        requires empty { caches.entries ≡ held [] }
        ensures { result ≡ new_queue_unit caches }
    {
        QueueUnit {
            unit: Unit::new(caches),
            rereads: false,
            found: None,
            turned: false,
        }
    }

    /// Whether consumption is stopped: at an illegal command, or for an error that was found.
    pub fn stopped(&self) -> bool
        ensures { IsTrue result ↔ IsStoppedQueue self.now }
    {
        self.found.is_some() || self.unit.stopped()
    }

    /// Stops for an error that was found. CMDQ_ERR of SMMU_GERROR toggles.
    pub fn stop(&mut self, error: QueueError)
        requires running { ¬ IsStoppedQueue self.old }
        ensures { self.new ≡ record self.old { found = Some error } }
    {
        self.found = Some(error);
    }

    /// Sets CMDQ_ERR of both registers to that of these words, as they were where this queue was served before. If they
    /// differ, consumption is stopped for this error.
    pub fn restore(&mut self, gerror: u32, gerrorn: u32, error: QueueError)
        requires running { ¬ IsStoppedQueue self.old }
        ensures gerror { error_bit self.new ≡ command_queue_bit gerror }
        ensures gerrorn { acknowledged_bit self.new ≡ command_queue_bit gerrorn }
        ensures found { IfSome self.new.found (λ found. found ≡ error) }
        ensures kept { OnlyRegistersChanged self.old self.new }
    {
        let (_, acknowledged) = self.unit.error_bits();
        let wanted = command_queue_bit(gerrorn);
        self.turned = acknowledged != wanted;
        if command_queue_bit(gerror) != wanted {
            self.found = Some(error);
        }
    }

    /// Judges the words that come next, as `Unit::judge_words` does. After `StopRemedy::Reread`, if they aren't those at
    /// which it stopped, it takes these without effect first.
    ///
    /// Errors, in this order: `StillStopped`; `OtherCommand`; `Exhausted`, if as many commands were taken as may be, or,
    /// where the old words are taken too, one fewer.
    pub fn judge(&mut self, raw: Raw) -> Result<Judgement, JudgeFault>
        ensures refused { IsJudgeRefusal raw self.old result }
        ensures ok { IfOk result (λ judgement. HasJudgedNext raw self.old self.new judgement) }
        ensures err { OnErr result (self.new ≡ self.old) }
    {
        if self.stopped() {
            return Err(JudgeFault::StillStopped);
        }
        let taken = self.unit.counts().taken();
        match self.unit.awaited() {
            Some(awaited) if awaited != raw => {
                if !self.rereads {
                    return Err(JudgeFault::OtherCommand);
                }
                if taken + 1 >= MOST_RESERVED {
                    return Err(JudgeFault::Exhausted);
                }
                self.unit.replace_awaited(awaited);
            }
            _ => {
                if taken >= MOST_RESERVED {
                    return Err(JudgeFault::Exhausted);
                }
            }
        }
        self.rereads = false;
        Ok(self.unit.judge_words(raw))
    }

    /// CMDQ_ERR of SMMU_GERROR and of SMMU_GERRORN.
    fn bits(&self) -> (bool, bool)
        ensures error { result.0 ≡ error_bit self.now }
        ensures acknowledged { result.1 ≡ acknowledged_bit self.now }
    {
        let (error, acknowledged) = self.unit.error_bits();
        let turned = error != self.turned;
        (turned != self.found.is_some(), acknowledged != self.turned)
    }

    /// SMMU_CMDQ_CONS.ERR, SMMU_GERROR and SMMU_GERRORN.
    pub fn error(&self) -> (u32, u32, u32)
        ensures err { result.0 ≡ queue_err_of self.now }
        ensures gerror { result.1 ≡ word_of (error_bit self.now) }
        ensures gerrorn { result.2 ≡ word_of (acknowledged_bit self.now) }
    {
        let (error, acknowledged) = self.bits();
        let err = match self.found {
            Some(found) => found.number(),
            None => u32::from(self.unit.stopped()),
        };
        (err, word_of(error), word_of(acknowledged))
    }

    /// Software writes SMMU_GERRORN and chooses what happens to the command at which consumption stopped. Only CMDQ_ERR,
    /// bit 0, of the word matters. After an error that was found, the remedy means nothing: the queue is read on.
    ///
    /// Errors, in this order, each changing nothing: G1 if no error is active; G2 if CMDQ_ERR of the word isn't that of
    /// SMMU_GERROR.
    pub fn acknowledge(&mut self, gerrorn: u32, remedy: StopRemedy) -> Result<(), AckFault>
        ensures answer { IsQueueAcknowledgement self.old gerrorn result }
        ensures ok { OnOk result (self.new ≡ acknowledged_with remedy self.old) }
        ensures err { OnErr result (self.new ≡ self.old) }
        ensures settled { StaysSettled self.old.unit self.new.unit [] }
    {
        if !self.stopped() {
            return Err(AckFault::NoError);
        }
        if command_queue_bit(gerrorn) != self.bits().0 {
            return Err(AckFault::OtherBit);
        }
        if self.found.is_some() {
            self.found = None;
            self.turned = !self.turned;
            return Ok(());
        }
        self.unit.go_on_with(remedy.until_then());
        self.rereads = remedy == StopRemedy::Reread;
        Ok(())
    }

    /// Empties its caches, as a reset of the SMMU does, and starts its counts, error registers and stop afresh. Takes no
    /// memory.
    pub fn reset(&mut self)
        ensures { self.new ≡ new_queue_unit (emptied self.old.unit.caches) }
    {
        self.unit.reset();
        self.rereads = false;
        self.found = None;
        self.turned = false;
    }
}
