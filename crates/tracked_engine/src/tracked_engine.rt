//! The tracked engine: a tracked unit with the consumer of a ring.
ghost use Rattle.std.specs.Prelude.{◌≡◌, ◌≤◌, ◌↔◌, [], length};
ghost use Rattle.std.specs.Prelude.{IfSome, IsTrue, OnOk, OnErr};
ghost use Rattle.std.specs.FinMap as finite;
ghost use Rattle.caches.specs.Covers.{covers};
ghost use Rattle.caches.specs.Stored.{IsFillAnswer};
ghost use Rattle.engine.specs.Units.{HasLost, HasLostOlder};
ghost use Rattle.ring.specs.Runs.{raws_by};
ghost use Rattle.ring.specs.Finishing.{AreAll};
ghost use Rattle.engine.specs.Completions.{AreToCells};
ghost use Rattle.engine.specs.Stops.{IsStopped, IsAcknowledgementAnswer};
ghost use Rattle.engine.specs.Counting.{taken};
ghost use Rattle.transactions.specs.Tracking.{with_unit, with_filled, with_evicted};
ghost use Rattle.transactions.specs.Tracking.{with_acknowledged};
ghost use Rattle.transactions.specs.Outstanding.{AreCountsOf};
ghost use Rattle.transactions.specs.Transactions.{IsBeginAnswer, IsBeginWalkedAnswer, IsEndAnswer};
ghost use Rattle.transactions.specs.Transactions.{IsOutstandingWalk};
ghost use Rattle.transactions.specs.Walks.{AnswersWalk, IsCachesAnswer, with_walked};
ghost use Rattle.transactions.specs.Walks.{walk_now, began_on, IsRefusedElsewhere};
ghost use Rattle.transactions.specs.Together.{AreTracked, HasGrown};
ghost use Rattle.transactions.specs.Told.{WasToldAllFully, HasConsumerSteps, HasSenderSteps};
ghost use Rattle.transactions.specs.Told.{SenderWentOn};
ghost use Rattle.tracked_engine.specs.TrackedEngines.{IsEngineStep, IsEngineRun, IsToldByRun};
ghost use Rattle.tracked_engine.specs.TrackedEngines.{IsStoppedEngine, IsExhaustedEngine};
ghost use Rattle.tracked_engine.specs.TrackedEngines.{DifferInHistoryAlone};
ghost use Rattle.tracked_engine.specs.TrackedEngines.{ConsumerWentOn, HasLooked};
ghost use Rattle.tracked_engine.specs.TrackedEnds.{IsTrackedEnd};

use crate::finished::TrackedFinished;
use caches::{CacheFault, Entry, Tag, TagTest};
use cmdcodec::Command;
use engine::{AckFault, Completion, Counts, Registers, Remedy, RunAnswer, StepAnswer, Unit};
use ring::{Consumer, Ring, Sender};
use std::marker::Model;
use transactions::{
    BeginFault, Ended, OutstandingCounts, TrackedRun, TrackedStep, TrackedUnit, Transaction, Walk,
    WalkFault, step_run_with, step_with, told,
};

/// Serves a command queue as an engine does, with a unit that knows of walks and of transactions.
/// It is always tracked for all it took.
#[derive(Drop)]
pub struct TrackedEngine {
    /// `None` only while a call has it.
    consumer: Option<Consumer<TrackedUnit>>,
    tracked: TrackedUnit,
}

impl Model for TrackedEngine {
    ghost use Rattle.std.specs.Coded.{codes};
    ghost use Rattle.caches.specs.Stored.{stored_code};
    ghost use Rattle.tracked_engine.specs.TrackedEngines.{TrackedEngineValue, consumer_in};
    ghost use Rattle.tracked_engine.specs.TrackedEngines.{IsTrackedEngine};

    ghost Value = { TrackedEngineValue };

    ghost coded = { Prim.hlevel (codes, stored_code) };

    ghost view = { λ e. record { consumer = consumer_in e.consumer; tracked = e.tracked } };

    ghost invariant = { λ e. IsTrackedEngine e.consumer e.tracked };
}

impl TrackedEngine {
    /// Creates an engine from a ring's consumer and a unit that is tracked for all it took: both
    /// new, or parts of an engine.
    pub fn new(consumer: Consumer<TrackedUnit>, tracked: TrackedUnit) -> TrackedEngine
        requires together { AreTracked consumer tracked }
        ensures { result ≡ record { consumer = consumer; tracked = tracked } }
    {
        TrackedEngine {
            consumer: Some(consumer),
            tracked,
        }
    }

    /// Takes at most one command: applies and completes it, stops at it, or completes it without
    /// effect if told to replace it. A CMD_SYNC that has to wait for transactions stays in the
    /// ring.
    pub fn step(&mut self, ring: &Ring) -> TrackedStep
        requires { self.old.consumer.ring ≡ ring.now }
        ensures stepped { IsEngineStep result self.old self.new }
        ensures history { HasGrown self.old.consumer self.new.consumer }
        ensures still { (result ≡ TrackedStep.Stepped StepAnswer.StillStopped)
            ↔ IsStoppedEngine self.old }
        ensures exhausted { (result ≡ TrackedStep.Stepped StepAnswer.Exhausted)
            ↔ IsExhaustedEngine self.old }
        ensures tracked { AreTracked self.new.consumer self.new.tracked }
        ensures ring { self.new.consumer.ring ≡ self.old.consumer.ring }
    {
        let consumer = self.consumer.take().unwrap();
        let (consumer, step) = step_with(consumer, &mut self.tracked, ring);
        self.consumer = Some(consumer);
        step
    }

    /// Takes up to `most` commands, 1 to 64: of those ready from the head on it applies all before
    /// the first that is illegal or a CMD_SYNC that has to wait for transactions, and completes
    /// them together. If that one comes first, it does with it as `step` does.
    pub fn step_run(&mut self, ring: &Ring, most: u32) -> TrackedRun
        requires ring { self.old.consumer.ring ≡ ring.now }
        requires some { 1 ≤ most }
        requires most { most ≤ 64 }
        ensures stepped { IsEngineRun most result self.old self.new }
        ensures history { HasGrown self.old.consumer self.new.consumer }
        ensures still { (result ≡ TrackedRun.Ran RunAnswer.StillStopped)
            ↔ IsStoppedEngine self.old }
        ensures exhausted { (result ≡ TrackedRun.Ran RunAnswer.Exhausted)
            ↔ IsExhaustedEngine self.old }
        ensures tracked { AreTracked self.new.consumer self.new.tracked }
        ensures ring { self.new.consumer.ring ≡ self.old.consumer.ring }
    {
        let consumer = self.consumer.take().unwrap();
        let (consumer, run, _) = step_run_with(consumer, &mut self.tracked, ring, most, &mut []);
        self.consumer = Some(consumer);
        run
    }

    /// Does what `step_run` does, and tells whose CMD_SYNCs it completed: it writes them to the
    /// beginning of `completions`, in the order of their reservation, and returns how many they
    /// are. The rest of `completions` is as before. Where no command was applied it tells of none.
    pub fn step_run_telling(
        &mut self,
        ring: &Ring,
        most: u32,
        completions: &mut [Completion],
    ) -> (TrackedRun, usize)
        requires ring { self.old.consumer.ring ≡ ring.now }
        requires some { 1 ≤ most }
        requires most { most ≤ 64 }
        requires room { most ≤ length completions.old }
        ensures stepped { IsEngineRun most result.0 self.old self.new }
        ensures told { IsToldByRun most result completions.old completions.new self.old self.new }
        // So none that was completed is left out.
        ensures cells { AreToCells (raws_by self.new.consumer.trail) }
        ensures history { HasGrown self.old.consumer self.new.consumer }
        ensures still { (result.0 ≡ TrackedRun.Ran RunAnswer.StillStopped)
            ↔ IsStoppedEngine self.old }
        ensures exhausted { (result.0 ≡ TrackedRun.Ran RunAnswer.Exhausted)
            ↔ IsExhaustedEngine self.old }
        ensures tracked { AreTracked self.new.consumer self.new.tracked }
        ensures ring { self.new.consumer.ring ≡ self.old.consumer.ring }
    {
        let consumer = self.consumer.take().unwrap();
        let (consumer, run, many) = step_run_with(
            consumer,
            &mut self.tracked,
            ring,
            most,
            completions,
        );
        consumer.syncs_are_closing();
        self.consumer = Some(consumer);
        (run, many)
    }

    /// Returns the queue's registers at this moment.
    pub fn registers(&mut self, ring: &Ring) -> Registers
        requires { self.old.consumer.ring ≡ ring.now }
        ensures looked { HasLooked self.old self.new result }
        ensures tracked { AreTracked self.new.consumer self.new.tracked }
        ensures ring { self.new.consumer.ring ≡ self.old.consumer.ring }
    {
        let mut consumer = self.consumer.take().unwrap();
        let control = consumer.look(ring);
        self.consumer = Some(consumer);
        let (err, gerror, gerrorn) = self.tracked.unit().error();
        Registers {
            prod: control.prod_register(),
            cons: control.cons_register(err),
            gerror,
            gerrorn,
        }
    }

    /// A witness, while the ring runs, that a sender was told truly: whatever number it was told,
    /// no entry is held, and no transaction is outstanding that uses one or tables, which is older
    /// than a command that was reserved before that CMD_SYNC and concerns it. From then on both know
    /// the run as it is at this moment, which has the steps of both. Otherwise both stay as they
    /// are.
    pub fn told(&mut self, ring: &Ring, sender: &mut Sender)
        requires ring { self.old.consumer.ring ≡ ring.now }
        requires sender { sender.old.ring ≡ ring.now }
        ensures told { WasToldAllFully self.new.consumer.history self.new.tracked sender.old }
        ensures tracked { AreTracked self.new.consumer self.new.tracked }
        ensures unit { self.new.tracked ≡ self.old.tracked }
        ensures consumer { DifferInHistoryAlone self.old.consumer self.new.consumer }
        ensures sender { record sender.new { history = [] } ≡ record sender.old { history = [] } }
        ensures one { sender.new.history ≡ self.new.consumer.history }
        ensures of_consumer { HasConsumerSteps self.old.consumer self.new.consumer.history }
        ensures of_sender { HasSenderSteps sender.old self.new.consumer.history }
        ensures known_to_consumer { ConsumerWentOn self.old.consumer self.new.consumer.history }
        ensures known_to_sender { SenderWentOn sender.old self.new.consumer.history }
    {
        let mut consumer = self.consumer.take().unwrap();
        told(&mut consumer, &self.tracked, ring, sender);
        self.consumer = Some(consumer);
    }

    /// Returns the consumer and the unit, which is tracked for all it took.
    pub fn into_parts(self) -> (Consumer<TrackedUnit>, TrackedUnit)
        ensures consumer { result.0 ≡ self.consumer }
        ensures unit { result.1 ≡ self.tracked }
        ensures together { AreTracked result.0 result.1 }
    {
        let TrackedEngine { consumer, tracked } = self;
        (consumer.unwrap(), tracked)
    }

    /// Joins the engine and all senders of its ring. `senders` has them in the order of their
    /// numbers. One run has all their steps. Whatever number a sender was told, no entry is held,
    /// and no transaction is outstanding that uses one or tables, which is older than a command
    /// that was reserved before that CMD_SYNC and concerns it.
    ///
    /// Transactions may be outstanding still, so the unit comes back.
    pub fn finish(self, ring: Ring, senders: Vec<Sender>) -> TrackedFinished
        requires senders { AreAll ring senders.items }
        requires ring { self.consumer.ring ≡ ring }
        ensures end { IsTrackedEnd ring senders.items self result.summary result.tracked }
        ensures unit { result.tracked ≡ self.tracked }
    {
        let (consumer, tracked) = self.into_parts();
        TrackedFinished {
            summary: ring.finish(senders, consumer),
            tracked,
        }
    }
}

impl TrackedEngine {
    /// A witness that its unit is tracked for all that its consumer took. It does nothing.
    pub fn is_tracked(&self)
        ensures { AreTracked self.now.consumer self.now.tracked }
    {
        let _ = &self.consumer;
    }

    /// Returns its unit, for whoever only reads its entries, registers and counts.
    pub fn unit(&self) -> &Unit
        ensures { result.now ≡ self.now.tracked.unit }
    {
        self.tracked.unit()
    }

    /// Whether consumption is stopped at an illegal command.
    pub fn stopped(&self) -> bool
        ensures { IsTrue result ↔ IsStopped self.now.tracked.unit.stop.mode }
    {
        self.tracked.unit().stopped()
    }

    /// Returns the counts of the commands taken.
    pub fn counts(&self) -> Counts
        ensures { result ≡ self.now.tracked.unit.counts }
    {
        self.tracked.unit().counts()
    }

    /// Returns the entry held under `tag`, if any.
    pub fn lookup(&self, tag: &Tag) -> Option<Entry>
        ensures value { result ≡ finite.get self.now.tracked.unit.caches.entries tag.now }
        ensures own { IfSome result (λ entry. entry.tag ≡ tag.now) }
    {
        self.tracked.unit().lookup(tag)
    }

    /// Software writes SMMU_GERRORN and chooses what happens to the command, as
    /// `Unit::acknowledge`.
    ///
    /// Errors, in this order, each changing nothing: G1 if no error is active; G2 if CMDQ_ERR of
    /// the word isn't that of SMMU_GERROR.
    pub fn acknowledge(&mut self, gerrorn: u32, remedy: Remedy) -> Result<(), AckFault>
        ensures answer { IsAcknowledgementAnswer self.old.tracked.unit.stop gerrorn result }
        ensures ok { OnOk result (self.new.tracked ≡ with_acknowledged remedy self.old.tracked) }
        ensures err { OnErr result (self.new ≡ self.old) }
        ensures consumer { self.new.consumer ≡ self.old.consumer }
        ensures tracked { AreTracked self.new.consumer self.new.tracked }
    {
        self.tracked.acknowledge(gerrorn, remedy)
    }

    /// Puts in an entry that is read and born now, and returns the one held under its tag before,
    /// if any.
    ///
    /// Errors, in this order, each changing nothing: C2 if the tag's block isn't well formed; C1 if
    /// the tag is new and the caches are full; C3 if the tag is new and memory runs out.
    pub fn fill(&mut self, tag: Tag, value: u64) -> Result<Option<Entry>, CacheFault>
        ensures answer { IsFillAnswer self.old.tracked.unit.caches tag result }
        ensures ok { OnOk result (self.new.tracked ≡ with_filled tag value self.old.tracked) }
        ensures err { OnErr result (self.new ≡ self.old) }
        ensures consumer { self.new.consumer ≡ self.old.consumer }
        ensures tracked { AreTracked self.new.consumer self.new.tracked }
    {
        self.tracked.fill(tag, value)
    }

    /// Removes and returns the entry held under `tag`, if any. Transactions that began with it stay
    /// outstanding.
    pub fn evict(&mut self, tag: &Tag) -> Option<Entry>
        ensures was { result ≡ finite.get self.old.tracked.unit.caches.entries tag.now }
        ensures new { self.new.tracked ≡ with_evicted tag.now self.old.tracked }
        ensures consumer { self.new.consumer ≡ self.old.consumer }
        ensures tracked { AreTracked self.new.consumer self.new.tracked }
    {
        self.tracked.evict(tag)
    }

    /// Removes the entries that `command` covers, without taking it, and returns how many there
    /// were, as `TrackedUnit::invalidate` does.
    pub fn invalidate(&mut self, command: &Command) -> u32
        ensures lost { HasLost (covers command.now) result self.old.tracked.unit
            self.new.tracked.unit }
        ensures rest { self.new.tracked ≡ with_unit self.new.tracked.unit self.old.tracked }
        ensures consumer { self.new.consumer ≡ self.old.consumer }
        ensures tracked { AreTracked self.new.consumer self.new.tracked }
    {
        self.tracked.invalidate(command)
    }

    /// Removes all entries whose tags pass `test` and returns how many there were, as
    /// `TrackedUnit::evict_all` does.
    pub fn evict_all<T: TagTest>(&mut self, test: &T) -> u32
        ensures lost { HasLost (T.passing test.now) result self.old.tracked.unit
            self.new.tracked.unit }
        ensures rest { self.new.tracked ≡ with_unit self.new.tracked.unit self.old.tracked }
        ensures consumer { self.new.consumer ≡ self.old.consumer }
        ensures tracked { AreTracked self.new.consumer self.new.tracked }
    {
        self.tracked.evict_all(test)
    }

    /// Removes all entries that were filled before `born` commands were taken and returns how many
    /// there were, as `TrackedUnit::evict_older` does.
    pub fn evict_older(&mut self, born: u64) -> u32
        ensures lost { HasLostOlder born result self.old.tracked.unit self.new.tracked.unit }
        ensures rest { self.new.tracked ≡ with_unit self.new.tracked.unit self.old.tracked }
        ensures consumer { self.new.consumer ≡ self.old.consumer }
        ensures tracked { AreTracked self.new.consumer self.new.tracked }
    {
        self.tracked.evict_older(born)
    }
}

impl TrackedEngine {
    /// A translation table walk begins now.
    pub fn begin_walk(&self) -> Walk
        ensures walk { result ≡ walk_now self.now.tracked }
        ensures began { began_on self.now.tracked result ≡ taken self.now.tracked.unit.counts }
        ensures elsewhere { IsRefusedElsewhere self.now.tracked result }
    {
        self.tracked.begin_walk()
    }

    /// A translation table walk begins now that a CMD_SYNC waits for: it counts as a transaction
    /// that each invalidation concerns. Its token is to be given to `end` once it reads and writes
    /// tables no more. `None`, changing nothing, if as many transactions are outstanding as there is
    /// room for.
    pub fn begin_outstanding_walk(&mut self) -> Option<(Walk, Transaction)>
        ensures begun { IsOutstandingWalk (walk_now self.old.tracked) self.old.tracked
            self.new.tracked result }
        ensures consumer { self.new.consumer ≡ self.old.consumer }
        ensures tracked { AreTracked self.new.consumer self.new.tracked }
    {
        self.tracked.begin_outstanding_walk()
    }

    /// Fills what a walk read, as an entry that was born when the walk began, and returns the one
    /// held under its tag before, if any.
    ///
    /// Errors, in this order, each changing nothing: OtherUnit, TooOld and Overtaken, if the tag's
    /// block is well formed; then those of `fill`.
    pub fn fill_walked(
        &mut self,
        walk: Walk,
        tag: Tag,
        value: u64,
    ) -> Result<Option<Entry>, WalkFault>
        ensures answer { AnswersWalk self.old.tracked (began_on self.old.tracked walk) tag result }
        ensures caches { IsCachesAnswer self.old.tracked.unit.caches tag result }
        ensures ok { OnOk result (self.new.tracked
            ≡ with_walked (began_on self.old.tracked walk) tag value self.old.tracked) }
        ensures err { OnErr result (self.new ≡ self.old) }
        ensures consumer { self.new.consumer ≡ self.old.consumer }
        ensures tracked { AreTracked self.new.consumer self.new.tracked }
    {
        self.tracked.fill_walked(walk, tag, value)
    }

    /// A transaction begins with the entry that is held under a tag. Its token is to be given to
    /// `end` when it is over.
    ///
    /// Errors, in this order, each changing nothing: NotHeld if nothing is held under the tag or
    /// its block isn't well formed; Full if as many are outstanding as there is room for.
    pub fn begin(&mut self, tag: &Tag) -> Result<(Entry, Transaction), BeginFault>
        ensures begun { IsBeginAnswer self.old.tracked tag.now self.new.tracked result }
        ensures consumer { self.new.consumer ≡ self.old.consumer }
        ensures tracked { AreTracked self.new.consumer self.new.tracked }
    {
        self.tracked.begin(tag)
    }

    /// A transaction begins with what a walk read, whether that is held or not: as with an entry
    /// that was born when the walk began.
    ///
    /// Errors, in this order, each changing nothing: Walked with the fault that `fill_walked`
    /// answers by the tag's block and by what was taken; Full if as many are outstanding as there
    /// is room for.
    pub fn begin_walked(&mut self, walk: Walk, tag: &Tag) -> Result<Transaction, BeginFault>
        ensures begun { IsBeginWalkedAnswer self.old.tracked (began_on self.old.tracked walk)
            tag.now self.new.tracked result }
        ensures consumer { self.new.consumer ≡ self.old.consumer }
        ensures tracked { AreTracked self.new.consumer self.new.tracked }
    {
        self.tracked.begin_walked(walk, tag)
    }

    /// A transaction is over. Returns whether it was the last that a CMD_SYNC waits for.
    ///
    /// Errors, changing nothing: the token, if it isn't of a transaction that is outstanding here,
    /// but has ended or is another unit's.
    pub fn end(&mut self, transaction: Transaction) -> Result<Ended, Transaction>
        ensures ended { IsEndAnswer self.old.tracked transaction self.new.tracked result }
        ensures consumer { self.new.consumer ≡ self.old.consumer }
        ensures tracked { AreTracked self.new.consumer self.new.tracked }
    {
        self.tracked.end(transaction)
    }

    /// How many transactions are outstanding.
    pub fn outstanding(&self) -> OutstandingCounts
        ensures { AreCountsOf self.now.tracked.outstanding result }
    {
        self.tracked.outstanding()
    }
}
