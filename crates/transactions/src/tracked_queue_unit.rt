//! A unit with walks and transactions that serves a queue in memory that its owner may write over.
ghost use Rattle.std.specs.Prelude.{◌≡◌, ◌+◌, ◌<◌, ◌↔◌, [], Some, Err};
ghost use Rattle.std.specs.Prelude.{IfOk, IfSome, OnOk, OnErr, IsTrue};
ghost use Rattle.std.specs.FinMap as finite;
ghost use Rattle.caches.specs.Covers.{covers};
ghost use Rattle.caches.specs.Held.{held};
ghost use Rattle.caches.specs.Stored.{IsFillAnswer};
ghost use Rattle.engine.specs.Stops.{command_queue_bit, word_of};
ghost use Rattle.engine.specs.Units.{HasLost, HasLostOlder};
ghost use Rattle.engine.specs.QueueUnits.{IsStoppedQueue, IsJudgeRefusal, IsQueueAcknowledgement};
ghost use Rattle.engine.specs.QueueUnits.{error_bit, acknowledged_bit, queue_err_of};
ghost use Rattle.engine.specs.QueueUnits.{OnlyRegistersChanged, acknowledged_with};
ghost use Rattle.transactions.specs.Between.{HasTakenQueue};
ghost use Rattle.transactions.specs.Outstanding.{AreCountsOf};
ghost use Rattle.transactions.specs.Tracking.{IsTracked, StaysTracked};
ghost use Rattle.transactions.specs.TrackedQueueUnits.{tracked_in, new_tracked_queue, with_queue};
ghost use Rattle.transactions.specs.TrackedQueueUnits.{with_its_unit, with_filled_queue};
ghost use Rattle.transactions.specs.TrackedQueueUnits.{with_evicted_queue, with_removed, KeepsQueue};
ghost use Rattle.transactions.specs.TrackedQueueUnits.{walk_now, began_in, RefusesWalksOf};
ghost use Rattle.transactions.specs.TrackedQueueUnits.{BringsNearer, RefusesWalks, IsRefusedByOthers};
ghost use Rattle.engine.specs.Counting.{taken};
ghost use Rattle.transactions.specs.TrackedQueueUnits.{reset_queue, IsTrackedJudgement};
ghost use Rattle.transactions.specs.TrackedQueueUnits.{QueueWaitsExactly, HasTakenNext};
ghost use Rattle.transactions.specs.Transactions.{IsBeginAnswer, IsBeginWalkedAnswer, IsEndAnswer};
ghost use Rattle.transactions.specs.Transactions.{bits_of, IsOutstandingWalk};
ghost use Rattle.transactions.specs.Walks.{AnswersWalk, IsCachesAnswer, with_walked};

use crate::tracked_judgement::TrackedJudgement;
use crate::tracking::Tracking;
use crate::transaction::{BeginFault, Ended, OutstandingCounts, Transaction};
use crate::walk::{NUMBERS, Walk, WalkFault, WalkNumbers};
use caches::{CacheFault, Caches, Entry, Tag, TagTest};
use cmdcodec::{Command, Raw};
use engine::{AckFault, JudgeFault, Judgement, QueueError, QueueUnit, StopRemedy, Unit};
use ringcore::MOST_RESERVED;
use std::alloc::{AllocError, Global};
use std::marker::Model;

/// A unit that serves a queue in memory as `engine::QueueUnit` does, and knows of walks and of
/// transactions as `TrackedUnit` does.
///
/// A reset takes no memory. No walk and no transaction that began before it counts after it.
#[derive(Drop)]
pub struct TrackedQueueUnit {
    queue: QueueUnit,
    tracking: Tracking,
    walks: WalkNumbers,
}

impl Model for TrackedQueueUnit {
    ghost use Rattle.std.specs.Coded.{codes};
    ghost use Rattle.caches.specs.Stored.{stored_code};
    ghost use Rattle.transactions.specs.Walks.{AreNumbers};
    ghost use Rattle.transactions.specs.TrackedQueueUnits.{TrackedQueueValue};
    ghost use Rattle.engine.specs.Counting.{taken};

    ghost Value = { TrackedQueueValue };

    ghost coded = { Prim.hlevel (codes, stored_code) };

    ghost view = { λ t. record {
      queue = t.queue;
      recent = t.tracking.recent;
      outstanding = t.tracking.outstanding;
      next_number = t.tracking.next_number;
      walks = t.walks;
    } };

    ghost invariant = { λ t. AreNumbers t.walks (taken t.queue.unit.counts) };
}

impl TrackedQueueUnit {
    /// Creates one that has taken nothing, with these empty caches, and room for 0 to 65,535
    /// transactions. Its number tells its transactions and walks from those of other units: who has
    /// several gives each another.
    pub fn new(
        alloc: Global,
        number: u8,
        caches: Caches,
        room: u16,
    ) -> Result<TrackedQueueUnit, AllocError>
        requires empty { caches.entries ≡ held [] }
        ensures unit { IfOk result (λ t. t ≡ new_tracked_queue number caches room) }
        ensures tracked { IfOk result (λ t. IsTracked (tracked_in t) []) }
    {
        let tracking = Tracking::new(alloc, number, room)?;
        let queue = QueueUnit::new(caches);
        Ok(TrackedQueueUnit {
            queue,
            tracking,
            walks: WalkNumbers { first: 1, since: 0 },
        })
    }

    /// Judges the words that come next, as `QueueUnit::judge` does. A legal CMD_SYNC waits while a
    /// transaction is outstanding that a command before it concerns. Then nothing is taken, not even words that it was written over.
    ///
    /// Errors, ahead of waiting and changing nothing: those of `QueueUnit::judge`.
    pub fn judge(&mut self, raw: Raw) -> Result<TrackedJudgement, JudgeFault>
        ensures refused { IsJudgeRefusal raw self.old.queue result }
        ensures judged { IfOk result (λ answer. IsTrackedJudgement raw self.old self.new answer) }
        ensures waits { IfOk result (λ answer. QueueWaitsExactly raw self.old answer) }
        ensures tracked { IfOk result (λ answer. HasTakenNext raw self.old self.new answer) }
        ensures err { OnErr result (self.new ≡ self.old) }
    {
        if let Some(transactions) = self.tracking.has_to_wait(raw) {
            may_judge(&self.queue, raw)?;
            return Ok(TrackedJudgement::Waiting { transactions });
        }
        let judgement = self.take(raw)?;
        Ok(TrackedJudgement::Judged(judgement))
    }

    /// Judges words that needn't wait.
    fn take(&mut self, raw: Raw) -> Result<Judgement, JudgeFault>
        ensures refused { IsJudgeRefusal raw self.old.queue result }
        ensures ok { IfOk result (λ judgement. HasTakenQueue raw self.old self.new judgement) }
        ensures err { OnErr result (self.new ≡ self.old) }
    {
        match self.queue.judge(raw)? {
            Judgement::Applied { removed } => {
                // Words that were written over are taken ahead of these.
                let place = self.queue.unit.counts().taken() - 1;
                self.tracking.note(place, raw);
                Ok(Judgement::Applied { removed })
            }
            other => Ok(other),
        }
    }

    /// Whether consumption is stopped, as of `QueueUnit::stopped`.
    pub fn stopped(&self) -> bool
        ensures { IsTrue result ↔ IsStoppedQueue self.now.queue }
    {
        self.queue.stopped()
    }

    /// Stops for an error that was found. CMDQ_ERR of SMMU_GERROR toggles.
    pub fn stop(&mut self, error: QueueError)
        requires running { ¬ IsStoppedQueue self.old.queue }
        ensures stopped { self.new
            ≡ with_queue (record self.old.queue { found = Some error }) self.old }
        ensures tracked { StaysTracked (tracked_in self.old) (tracked_in self.new) [] }
    {
        self.queue.stop(error)
    }

    /// Sets CMDQ_ERR of both registers to that of these words, as `QueueUnit::restore` does.
    pub fn restore(&mut self, gerror: u32, gerrorn: u32, error: QueueError)
        requires running { ¬ IsStoppedQueue self.old.queue }
        ensures gerror { error_bit self.new.queue ≡ command_queue_bit gerror }
        ensures gerrorn { acknowledged_bit self.new.queue ≡ command_queue_bit gerrorn }
        ensures found { IfSome self.new.queue.found (λ found. found ≡ error) }
        ensures kept { OnlyRegistersChanged self.old.queue self.new.queue }
        ensures rest { self.new ≡ with_queue self.new.queue self.old }
        ensures tracked { StaysTracked (tracked_in self.old) (tracked_in self.new) [] }
    {
        self.queue.restore(gerror, gerrorn, error)
    }

    /// SMMU_CMDQ_CONS.ERR, SMMU_GERROR and SMMU_GERRORN.
    pub fn error(&self) -> (u32, u32, u32)
        ensures err { result.0 ≡ queue_err_of self.now.queue }
        ensures gerror { result.1 ≡ word_of (error_bit self.now.queue) }
        ensures gerrorn { result.2 ≡ word_of (acknowledged_bit self.now.queue) }
    {
        self.queue.error()
    }

    /// Software writes SMMU_GERRORN and chooses what happens to the command at which consumption
    /// stopped, as of `QueueUnit::acknowledge`.
    ///
    /// Errors, in this order, each changing nothing: G1 if no error is active; G2 if CMDQ_ERR of
    /// the word isn't that of SMMU_GERROR.
    pub fn acknowledge(&mut self, gerrorn: u32, remedy: StopRemedy) -> Result<(), AckFault>
        ensures answer { IsQueueAcknowledgement self.old.queue gerrorn result }
        ensures ok { OnOk result (self.new
            ≡ with_queue (acknowledged_with remedy self.old.queue) self.old) }
        ensures err { OnErr result (self.new ≡ self.old) }
        ensures tracked { StaysTracked (tracked_in self.old) (tracked_in self.new) [] }
    {
        self.queue.acknowledge(gerrorn, remedy)
    }

    /// Empties its caches, as a reset of the SMMU does, and starts the queue afresh. Every slot is
    /// free: the tokens of before end nothing, and walks that began before are refused. Takes no
    /// memory.
    pub fn reset(&mut self)
        ensures reset { self.new ≡ reset_queue self.old }
        ensures tracked { IsTracked (tracked_in self.new) [] }
        ensures walks { RefusesWalksOf self.old self.new }
        ensures older { BringsNearer (taken self.old.queue.unit.counts + 1) self.old self.new }
    {
        let taken = self.queue.unit.counts().taken();
        self.walks = self.walks.behind(taken, 0);
        self.queue.reset();
        self.tracking.reset();
    }
}

impl TrackedQueueUnit {
    /// A translation table walk begins now.
    pub fn begin_walk(&self) -> Walk
        ensures walk { result ≡ walk_now self.now }
        ensures began { began_in self.now result ≡ taken self.now.queue.unit.counts }
        ensures elsewhere { IsRefusedByOthers self.now result }
    {
        let taken = self.queue.unit.counts().taken();
        Walk::new(self.tracking.unit_number(), self.walks.now(taken))
    }

    /// A translation table walk begins now that a CMD_SYNC waits for, as
    /// `TrackedUnit::begin_outstanding_walk` says. `None`, changing nothing, if as many transactions
    /// are outstanding as there is room for.
    pub fn begin_outstanding_walk(&mut self) -> Option<(Walk, Transaction)>
        ensures begun { IsOutstandingWalk (walk_now self.old) (tracked_in self.old)
            (tracked_in self.new) result }
        ensures some { IfSome result (λ both. 0 < bits_of both.1) }
        ensures queue { KeepsQueue self.old self.new }
        ensures tracked { StaysTracked (tracked_in self.old) (tracked_in self.new) [] }
    {
        let walk = self.begin_walk();
        self.tracking.begin_outstanding_walk(&self.queue.unit, walk)
    }

    /// After how many commands a walk began. Far more than can be taken if that was before a reset
    /// or an eviction, or on another unit.
    fn began(&self, walk: Walk) -> u64
        ensures { result ≡ began_in self.now walk }
    {
        if walk.bits / NUMBERS == self.tracking.unit_number() {
            self.walks.began(walk.bits % NUMBERS)
        } else {
            NUMBERS
        }
    }

    /// Fills what a walk read, as `TrackedUnit::fill_walked` does.
    ///
    /// Errors, in this order, each changing nothing: OtherUnit, also if it began before a reset or an
    /// eviction, TooOld and Overtaken, if the tag's block is well formed; then those of `fill`.
    pub fn fill_walked(
        &mut self,
        walk: Walk,
        tag: Tag,
        value: u64,
    ) -> Result<Option<Entry>, WalkFault>
        ensures answer { AnswersWalk (tracked_in self.old) (began_in self.old walk) tag result }
        ensures caches { IsCachesAnswer self.old.queue.unit.caches tag result }
        ensures ok { OnOk result (tracked_in self.new
            ≡ with_walked (began_in self.old walk) tag value (tracked_in self.old)) }
        ensures rest { self.new ≡ with_its_unit self.new.queue.unit self.old }
        ensures err { OnErr result (self.new ≡ self.old) }
        ensures tracked { StaysTracked (tracked_in self.old) (tracked_in self.new) [] }
    {
        let began = self.began(walk);
        self.tracking
            .fill_walked(&mut self.queue.unit, began, tag, value)
    }

    /// A transaction begins with the entry that is held under a tag. Its token is to be given to
    /// `end` when it is over.
    ///
    /// Errors, in this order, each changing nothing: NotHeld if nothing is held under the tag or
    /// its block isn't well formed; Full if as many are outstanding as there is room for.
    pub fn begin(&mut self, tag: &Tag) -> Result<(Entry, Transaction), BeginFault>
        ensures begun { IsBeginAnswer (tracked_in self.old) tag.now (tracked_in self.new) result }
        ensures some { IfOk result (λ both. 0 < bits_of both.1) }
        ensures queue { KeepsQueue self.old self.new }
        ensures tracked { StaysTracked (tracked_in self.old) (tracked_in self.new) [] }
    {
        self.tracking.begin(&self.queue.unit, tag)
    }

    /// A transaction begins with what a walk read, whether that is held or not: as with an entry
    /// that was born when the walk began.
    ///
    /// Errors, in this order, each changing nothing: Walked with the fault that `fill_walked`
    /// answers by the tag's block and by what was taken; Full if as many are outstanding as there
    /// is room for.
    pub fn begin_walked(&mut self, walk: Walk, tag: &Tag) -> Result<Transaction, BeginFault>
        ensures begun { IsBeginWalkedAnswer (tracked_in self.old) (began_in self.old walk) tag.now
            (tracked_in self.new) result }
        ensures some { IfOk result (λ transaction. 0 < bits_of transaction) }
        ensures queue { KeepsQueue self.old self.new }
        ensures tracked { StaysTracked (tracked_in self.old) (tracked_in self.new) [] }
    {
        let began = self.began(walk);
        self.tracking.begin_walked(&self.queue.unit, began, tag)
    }

    /// A transaction is over. Returns whether it was the last that a CMD_SYNC waits for.
    ///
    /// Errors, changing nothing: the token, if it isn't of a transaction that is outstanding here,
    /// but has ended, as by a reset, or is another unit's.
    pub fn end(&mut self, transaction: Transaction) -> Result<Ended, Transaction>
        ensures ended { IsEndAnswer (tracked_in self.old) transaction (tracked_in self.new) result }
        ensures queue { KeepsQueue self.old self.new }
        ensures tracked { StaysTracked (tracked_in self.old) (tracked_in self.new) [] }
    {
        self.tracking.end(transaction)
    }

    /// How many transactions are outstanding.
    pub fn outstanding(&self) -> OutstandingCounts
        ensures { AreCountsOf self.now.outstanding result }
    {
        self.tracking.counts()
    }
}

impl TrackedQueueUnit {
    /// Returns the unit, for whoever only reads its entries and counts.
    pub fn unit(&self) -> &Unit
        ensures { result.now ≡ self.now.queue.unit }
    {
        &self.queue.unit
    }

    /// Fills an entry that is read and born now, as `Unit::fill` does.
    pub fn fill(&mut self, tag: Tag, value: u64) -> Result<Option<Entry>, CacheFault>
        ensures answer { IsFillAnswer self.old.queue.unit.caches tag result }
        ensures ok { OnOk result (self.new ≡ with_filled_queue tag value self.old) }
        ensures err { OnErr result (self.new ≡ self.old) }
        ensures tracked { StaysTracked (tracked_in self.old) (tracked_in self.new) [] }
    {
        self.queue.unit.fill(tag, value)
    }

    /// Removes and returns the entry held under `tag`, if any. Transactions that began with it stay
    /// outstanding.
    pub fn evict(&mut self, tag: &Tag) -> Option<Entry>
        ensures was { result ≡ finite.get self.old.queue.unit.caches.entries tag.now }
        ensures new { self.new ≡ with_evicted_queue tag.now self.old }
        ensures tracked { StaysTracked (tracked_in self.old) (tracked_in self.new) [] }
    {
        self.queue.unit.evict(tag)
    }

    /// Removes all entries whose tags pass `test`, as `Unit::evict_all` does. Walks that began before
    /// are refused, since they may have read what is removed.
    pub fn evict_all<T: TagTest>(&mut self, test: &T) -> u32
        ensures lost { HasLost (T.passing test.now) result self.old.queue.unit self.new.queue.unit }
        ensures rest { self.new ≡ with_removed self.new.queue.unit self.old }
        ensures walks { RefusesWalks self.old self.new }
        ensures tracked { StaysTracked (tracked_in self.old) (tracked_in self.new) [] }
    {
        self.refuse_walks();
        self.queue.unit.evict_all(test)
    }

    /// Removes the entries that `command` covers, without taking it, as `Unit::invalidate` does.
    /// Walks that began before are refused. Transactions that began with one stay outstanding, and no
    /// CMD_SYNC waits for them for that.
    pub fn invalidate(&mut self, command: &Command) -> u32
        ensures lost { HasLost (covers command.now) result self.old.queue.unit self.new.queue.unit }
        ensures rest { self.new ≡ with_removed self.new.queue.unit self.old }
        ensures walks { RefusesWalks self.old self.new }
        ensures tracked { StaysTracked (tracked_in self.old) (tracked_in self.new) [] }
    {
        self.refuse_walks();
        self.queue.unit.invalidate(command)
    }

    /// Removes all entries that were filled before `born` commands were taken, as
    /// `Unit::evict_older` does. Walks that began before are refused.
    pub fn evict_older(&mut self, born: u64) -> u32
        ensures lost { HasLostOlder born result self.old.queue.unit self.new.queue.unit }
        ensures rest { self.new ≡ with_removed self.new.queue.unit self.old }
        ensures walks { RefusesWalks self.old self.new }
        ensures tracked { StaysTracked (tracked_in self.old) (tracked_in self.new) [] }
    {
        self.refuse_walks();
        self.queue.unit.evict_older(born)
    }

    /// Walks that began until now are refused from here on.
    fn refuse_walks(&mut self)
        ensures new { self.new ≡ with_removed self.old.queue.unit self.old }
        ensures walks { RefusesWalks self.old self.new }
    {
        let taken = self.queue.unit.counts().taken();
        self.walks = self.walks.behind(taken, taken);
    }
}

/// Whether a queue's unit would judge words. A CMD_SYNC that has to wait is refused first.
fn may_judge(queue: &QueueUnit, raw: Raw) -> Result<(), JudgeFault>
    ensures { IsJudgeRefusal raw queue.now result }
{
    if queue.stopped() {
        return Err(JudgeFault::StillStopped);
    }
    let taken = queue.unit.counts().taken();
    match queue.unit.awaited() {
        Some(awaited) if awaited != raw => {
            if !queue.rereads {
                return Err(JudgeFault::OtherCommand);
            }
            // The old words would be taken too.
            if taken + 1 >= MOST_RESERVED {
                return Err(JudgeFault::Exhausted);
            }
            Ok(())
        }
        _ => {
            if taken >= MOST_RESERVED {
                return Err(JudgeFault::Exhausted);
            }
            Ok(())
        }
    }
}
