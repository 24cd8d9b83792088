//! The engine: a unit with the consumer of a ring.
ghost use Rattle.std.specs.Prelude.{◌≡◌, ◌≤◌, ◌↔◌, [], length, IfSome, IsTrue, OnOk, OnErr};
ghost use Rattle.std.specs.FinMap as finite;
ghost use Rattle.qindex.specs.ControlWord.{IsControl};
ghost use Rattle.ringcore.specs.declared.world.event.Who.TheVariants.{Consumer as ConsumerOf, Sender as SenderOf};
ghost use Rattle.ringcore.specs.world.World.{world};
ghost use Rattle.caches.specs.Covers.{covers};
ghost use Rattle.caches.specs.Held.{held};
ghost use Rattle.caches.specs.Stored.{IsFillAnswer, IsListAnswer};
ghost use Rattle.ring.specs.Runs.{raws_by};
ghost use Rattle.ring.specs.table.Rule.{WentOn};
ghost use Rattle.ring.specs.table.Histories.{IsHistory};
ghost use Rattle.ring.specs.Finishing.{AreAll};
ghost use Rattle.ring.specs.consumer.Completing.{taken_of};
ghost use Rattle.engine.specs.Settled.{IsSettled};
ghost use Rattle.engine.specs.Stops.{IsStopped, IsAcknowledgementAnswer, acknowledged_by, err_of, word_of};
ghost use Rattle.engine.specs.Counting.{taken, AreCountsOf};
ghost use Rattle.engine.specs.Units.{HasLost, HasLostOlder, new_unit, filled, with_entries, OnlyRemoves};
ghost use Rattle.engine.specs.Engines.{HasGrown, HasStepped, HasRun, HasLooked, IsExhausted, IsSettledEngine, control_after};
ghost use Rattle.engine.specs.Completions.{HasTold, AreToCells};
ghost use Rattle.engine.specs.Ends.{WasToldAllTruly, IsEngineEnd};

mod run_stepping;
mod stepping;

use crate::answer::{Registers, RunAnswer, StepAnswer};
use crate::completion::Completion;
use crate::counts::Counts;
use crate::finished::Finished;
use crate::remedy::{AckFault, Remedy};
use crate::unit::Unit;
use caches::{CacheFault, Caches, Entry, Tag, TagTest};
use cmdcodec::Command;
use qindex::Control;
use ring::{Consumer, Ring, Sender};
use ringcore::laws;
use run_stepping::step_run_with;
use std::marker::Model;
pub use stepping::step_with;

/// Serves a command queue as an SMMU does: takes commands, applies them to its caches, and only then
/// completes them. It is always settled for all it took.
#[derive(Drop)]
pub struct Engine {
    /// `None` only while a call has it.
    consumer: Option<Consumer<Unit>>,
    unit: Unit,
}

impl Model for Engine {
    ghost use Rattle.std.specs.Coded.{codes};
    ghost use Rattle.caches.specs.Stored.{stored_code};
    ghost use Rattle.engine.specs.Engines.{EngineValue, consumer_in, IsEngine};

    ghost Value = { EngineValue };

    ghost coded = { Prim.hlevel (codes, stored_code) };

    ghost view = { λ e. record { consumer = consumer_in e.consumer; unit = e.unit } };

    ghost invariant = { λ e. IsEngine e.consumer e.unit };
}

impl Engine {
    /// Creates an engine from a ring's consumer that has taken nothing and these empty caches.
    pub fn new(consumer: Consumer<Unit>, caches: Caches) -> Engine
        requires consumer { taken_of consumer.trail ≡ [] }
        requires empty { caches.entries ≡ held [] }
        ensures { result ≡ record { consumer = consumer; unit = new_unit caches } }
    {
        Engine {
            consumer: Some(consumer),
            unit: Unit::new(caches),
        }
    }

    /// Takes at most one command: applies and completes it, stops at it, or completes it without effect if
    /// told to replace it. The caches change before the command completes.
    pub fn step(&mut self, ring: &Ring) -> StepAnswer
        requires { self.old.consumer.ring ≡ ring.now }
        ensures stepped { HasStepped self.old self.new result }
        ensures history { HasGrown self.old self.new }
        ensures still { (result ≡ StepAnswer.StillStopped) ↔ IsStopped self.old.unit.stop.mode }
        ensures exhausted { (result ≡ StepAnswer.Exhausted) ↔ IsExhausted self.old.unit }
        ensures settled { IsSettledEngine self.new }
        ensures removes { OnlyRemoves self.old.unit self.new.unit }
        ensures ring { self.new.consumer.ring ≡ self.old.consumer.ring }
    {
        let consumer = self.consumer.take().unwrap();
        let (consumer, answer) = step_with(consumer, &mut self.unit, ring);
        self.consumer = Some(consumer);
        answer
    }

    /// Takes up to `most` commands, 1 to 64: of those ready from the head on it applies all before the first
    /// illegal one, and completes them together. If the first is illegal, it treats that one as `step` does.
    pub fn step_run(&mut self, ring: &Ring, most: u32) -> RunAnswer
        requires ring { self.old.consumer.ring ≡ ring.now }
        requires some { 1 ≤ most }
        requires most { most ≤ 64 }
        ensures stepped { HasRun most self.old self.new result }
        ensures history { HasGrown self.old self.new }
        ensures still { (result ≡ RunAnswer.StillStopped) ↔ IsStopped self.old.unit.stop.mode }
        ensures exhausted { (result ≡ RunAnswer.Exhausted) ↔ IsExhausted self.old.unit }
        ensures settled { IsSettledEngine self.new }
        ensures removes { OnlyRemoves self.old.unit self.new.unit }
        ensures ring { self.new.consumer.ring ≡ self.old.consumer.ring }
    {
        let consumer = self.consumer.take().unwrap();
        let (consumer, answer, _) = step_run_with(consumer, &mut self.unit, ring, most, &mut []);
        self.consumer = Some(consumer);
        answer
    }

    /// Does what `step_run` does, and tells whose CMD_SYNCs it completed: it writes them to the beginning of
    /// `completions`, in the order of their reservation, and returns how many they are. The rest of
    /// `completions` is as before. Where no command was applied it tells of none.
    pub fn step_run_telling(
        &mut self,
        ring: &Ring,
        most: u32,
        completions: &mut [Completion],
    ) -> (RunAnswer, usize)
        requires ring { self.old.consumer.ring ≡ ring.now }
        requires some { 1 ≤ most }
        requires most { most ≤ 64 }
        requires room { most ≤ length completions.old }
        ensures stepped { HasRun most self.old self.new result.0 }
        ensures told { HasTold most self.old self.new result completions.old completions.new }
        // So none that was completed is left out.
        ensures cells { AreToCells (raws_by self.new.consumer.trail) }
        ensures history { HasGrown self.old self.new }
        ensures still { (result.0 ≡ RunAnswer.StillStopped) ↔ IsStopped self.old.unit.stop.mode }
        ensures exhausted { (result.0 ≡ RunAnswer.Exhausted) ↔ IsExhausted self.old.unit }
        ensures settled { IsSettledEngine self.new }
        ensures removes { OnlyRemoves self.old.unit self.new.unit }
        ensures ring { self.new.consumer.ring ≡ self.old.consumer.ring }
    {
        let consumer = self.consumer.take().unwrap();
        let (consumer, answer, many) = step_run_with(
            consumer,
            &mut self.unit,
            ring,
            most,
            completions,
        );
        consumer.syncs_are_closing();
        self.consumer = Some(consumer);
        (answer, many)
    }

    /// Returns the queue's registers at this moment.
    pub fn registers(&mut self, ring: &Ring) -> Registers
        requires { self.old.consumer.ring ≡ ring.now }
        ensures looked { HasLooked self.old self.new result }
        ensures ring { self.new.consumer.ring ≡ self.old.consumer.ring }
    {
        let mut consumer = self.consumer.take().unwrap();
        let control = consumer.look(ring);
        self.consumer = Some(consumer);
        let (err, gerror, gerrorn) = self.unit.error();
        Registers {
            prod: control.prod_register(),
            cons: control.cons_register(err),
            gerror,
            gerrorn,
        }
    }

    /// A witness, while the ring runs, that a sender was told truly: whatever number it was told, no entry is
    /// older than a command that was reserved before that CMD_SYNC and covers it. From then on both know the
    /// run as it is at this moment, which has the steps of both. Otherwise both stay as they are.
    ///
    /// Returns what the control word says at this moment, which is what that run leaves in it.
    pub fn told(&mut self, ring: &Ring, sender: &mut Sender) -> Control
        requires ring { self.old.consumer.ring ≡ ring.now }
        requires sender { sender.old.ring ≡ ring.now }
        ensures told { WasToldAllTruly self.new.consumer.history self.new.unit.caches.entries
            sender.old.number sender.old.trail }
        ensures settled { IsSettled self.new.unit.caches.entries
            (world self.new.consumer.history).taken }
        ensures unit { self.new.unit ≡ self.old.unit }
        ensures consumer { record self.new.consumer { history = [] }
            ≡ record self.old.consumer { history = [] } }
        ensures sender { record sender.new { history = [] } ≡ record sender.old { history = [] } }
        ensures one { sender.new.history ≡ self.new.consumer.history }
        ensures of_consumer { IsHistory self.old.consumer.ring.made_with ConsumerOf
            self.old.consumer.trail self.new.consumer.history }
        ensures of_sender { IsHistory sender.old.ring.made_with (SenderOf sender.old.number)
            sender.old.trail self.new.consumer.history }
        ensures known_to_consumer { WentOn ConsumerOf self.old.consumer.history
            self.new.consumer.history }
        ensures known_to_sender { WentOn (SenderOf sender.old.number) sender.old.history
            self.new.consumer.history }
        ensures control { IsControl self.old.consumer.ring.made_with.geometry result }
        ensures current { result ≡ control_after self.old.consumer.ring self.new.consumer.history }
    {
        laws::consumer_trail();
        self.is_settled();
        let mut consumer = self.consumer.take().unwrap();
        let control = consumer.meet(ring, sender);
        self.consumer = Some(consumer);
        control
    }

    /// Returns the consumer and the caches, which are settled for all it took.
    pub fn into_parts(self) -> (Consumer<Unit>, Caches)
        ensures consumer { result.0 ≡ self.consumer }
        ensures caches { result.1 ≡ self.unit.caches }
        ensures settled { IsSettled result.1.entries (taken_of result.0.trail) }
    {
        let Engine { consumer, unit } = self;
        (consumer.unwrap(), unit.into_caches())
    }

    /// Joins the engine and all senders of its ring. `senders` has them in the order of their numbers. One run
    /// has all their steps. Whatever number a sender was told, no entry is older than a command that was
    /// reserved before that CMD_SYNC and covers it.
    pub fn finish(self, ring: Ring, senders: Vec<Sender>) -> Finished
        requires senders { AreAll ring senders.items }
        requires ring { self.consumer.ring ≡ ring }
        ensures end { IsEngineEnd ring senders.items self result.summary result.counts
            result.caches.entries }
        ensures counts { result.counts ≡ self.unit.counts }
        ensures caches { result.caches ≡ self.unit.caches }
    {
        self.is_settled();
        let counts = self.counts();
        let (consumer, caches) = self.into_parts();
        Finished {
            summary: ring.finish(senders, consumer),
            counts,
            caches,
        }
    }
}

impl Engine {
    /// A witness that it is settled for all it took, with no entry older than a command that covers it, and
    /// that its counts are those of all it took. It does nothing.
    pub fn is_settled(&self)
        ensures settled { IsSettled self.now.unit.caches.entries
            (taken_of self.now.consumer.trail) }
        ensures many { taken self.now.unit.counts ≡ length (taken_of self.now.consumer.trail) }
        ensures counted { AreCountsOf (taken_of self.now.consumer.trail) self.now.unit.counts }
    {
        let _ = &self.consumer;
    }

    /// Returns its unit, for whoever only reads its entries, registers and counts.
    pub fn unit(&self) -> &Unit
        ensures { result.now ≡ self.now.unit }
    {
        &self.unit
    }

    /// Whether consumption is stopped at an illegal command.
    pub fn stopped(&self) -> bool
        ensures { IsTrue result ↔ IsStopped self.now.unit.stop.mode }
    {
        self.unit.stopped()
    }

    /// Returns the counts of the commands taken.
    pub fn counts(&self) -> Counts
        ensures { result ≡ self.now.unit.counts }
    {
        self.unit.counts()
    }

    /// SMMU_CMDQ_CONS.ERR, SMMU_GERROR and SMMU_GERRORN.
    pub fn error(&self) -> (u32, u32, u32)
        ensures err { result.0 ≡ err_of self.now.unit.stop.mode }
        ensures gerror { result.1 ≡ word_of self.now.unit.stop.error }
        ensures gerrorn { result.2 ≡ word_of self.now.unit.stop.acknowledged }
    {
        self.unit.error()
    }

    /// Software writes SMMU_GERRORN and chooses what happens to the command, as `Unit::acknowledge`.
    ///
    /// Errors, in this order, each changing nothing: G1 if no error is active; G2 if CMDQ_ERR of the word
    /// isn't that of SMMU_GERROR.
    pub fn acknowledge(&mut self, gerrorn: u32, remedy: Remedy) -> Result<(), AckFault>
        ensures answer { IsAcknowledgementAnswer self.old.unit.stop gerrorn result }
        ensures ok { OnOk result (self.new
            ≡ record self.old {
              unit = record self.old.unit
                  { stop = acknowledged_by remedy self.old.unit.stop };
            }) }
        ensures err { OnErr result (self.new ≡ self.old) }
        ensures consumer { self.new.consumer ≡ self.old.consumer }
        ensures settled { IsSettledEngine self.new }
    {
        self.unit.acknowledge(gerrorn, remedy)
    }

    /// Puts in an entry that is born now and returns the one held under its tag before, if any.
    ///
    /// Errors, in this order, each leaving the engine unchanged: C2 if the tag's block isn't well formed; C1
    /// if the tag is new and the caches are full; C3 if the tag is new and memory runs out.
    pub fn fill(&mut self, tag: Tag, value: u64) -> Result<Option<Entry>, CacheFault>
        ensures answer { IsFillAnswer self.old.unit.caches tag result }
        ensures ok { OnOk result (self.new
            ≡ record self.old {
              unit = with_entries self.old.unit
                  (filled tag value self.old.unit);
            }) }
        ensures err { OnErr result (self.new ≡ self.old) }
        ensures consumer { self.new.consumer ≡ self.old.consumer }
        ensures settled { IsSettledEngine self.new }
    {
        self.unit.fill(tag, value)
    }

    /// Removes and returns the entry held under `tag`, if any.
    pub fn evict(&mut self, tag: &Tag) -> Option<Entry>
        ensures was { result ≡ finite.get self.old.unit.caches.entries tag.now }
        ensures new { self.new
            ≡ record self.old {
              unit = with_entries self.old.unit
                  (finite.remove self.old.unit.caches.entries tag.now);
            } }
        ensures consumer { self.new.consumer ≡ self.old.consumer }
        ensures settled { IsSettledEngine self.new }
    {
        self.unit.evict(tag)
    }

    /// Removes all entries whose tags pass `test` and returns how many there were. Takes no memory.
    pub fn evict_all<T: TagTest>(&mut self, test: &T) -> u32
        ensures lost { HasLost (T.passing test.now) result self.old.unit self.new.unit }
        ensures new { self.new ≡ record self.old { unit = self.new.unit } }
        ensures settled { IsSettledEngine self.new }
    {
        self.unit.evict_all(test)
    }

    /// Removes the entries that `command` covers, without taking it, and returns how many there were, as
    /// `Unit::invalidate` does. Takes no memory.
    pub fn invalidate(&mut self, command: &Command) -> u32
        ensures lost { HasLost (covers command.now) result self.old.unit self.new.unit }
        ensures new { self.new ≡ record self.old { unit = self.new.unit } }
        ensures settled { IsSettledEngine self.new }
    {
        self.unit.invalidate(command)
    }

    /// Removes all entries that were filled before `born` commands were taken, those whose `born` is less, and returns
    /// how many there were. Takes no memory.
    pub fn evict_older(&mut self, born: u64) -> u32
        ensures lost { HasLostOlder born result self.old.unit self.new.unit }
        ensures new { self.new ≡ record self.old { unit = self.new.unit } }
        ensures settled { IsSettledEngine self.new }
    {
        self.unit.evict_older(born)
    }

    /// Returns the entry held under `tag`, if any.
    pub fn lookup(&self, tag: &Tag) -> Option<Entry>
        ensures value { result ≡ finite.get self.now.unit.caches.entries tag.now }
        ensures own { IfSome result (λ entry. entry.tag ≡ tag.now) }
    {
        self.unit.lookup(tag)
    }

    /// Returns all entries held, in tag order.
    ///
    /// Errors: only C3, if memory runs out.
    pub fn entries(&self) -> Result<Vec<Entry>, CacheFault>
        ensures { IsListAnswer self.now.unit.caches.entries result }
    {
        self.unit.entries()
    }
}
