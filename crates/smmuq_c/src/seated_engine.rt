//! An engine with its share of its own ring.
ghost use Rattle.std.specs.Prelude.{◌≡◌, ◌⊎◌, IfOk, IfErr, OnOk, length};
ghost use Rattle.std.specs.Arc.{arc_value};
ghost use Rattle.engine.specs.Engines.{IsSettledEngine};
ghost use Rattle.caches.specs.Covers.{covers};
ghost use Rattle.caches.specs.Held.{AreOwn};
ghost use Rattle.caches.specs.Limits.{IsCapacity};
ghost use Rattle.ring.specs.NewRings.{IsNewRing};
ghost use Rattle.renewal.specs.Queues.{IsWhole};
ghost use Rattle.renewal.specs.Carried.{IsCarried};
ghost use Rattle.engine.specs.Units.{HasLost, HasLostOlder};
ghost use Rattle.smmuq_c.specs.Entries.{HasFilled, HasEvicted};
ghost use Rattle.smmuq_c.specs.Registers.{HasAcknowledged};
ghost use Rattle.smmuq_c.specs.Runs.{HasRunFor, HasRunCompletions, HasToldRegisters};
ghost use Rattle.smmuq_c.specs.Renewing.{HasGoneOn, HasRenewed, IsNotRenewed};
ghost use Rattle.smmuq_c.specs.Kept.{IsKept};

use crate::answers::{acknowledgement_status, fill_status, tell_entry};
use crate::handle::Handle;
use crate::ring_calls::{count_of, fill_senders, share};
use crate::status::Status;
use crate::words::{Held, RegisterWords, RunWords};
use caches::{Tag, TagTest};
use cmdcodec::Command;
use engine::{Completion, Engine, Remedy, Unit};
use renewal::{Queue, Sizes, sees_waiting};
use ring::Ring;
use std::alloc::Global;
use std::marker::Model;
use std::sync::Arc;

/// An engine with its ring.
#[derive(Drop)]
pub(crate) struct SeatedEngine {
    ring: Arc<Ring>,
    engine: Engine,
}

impl Model for SeatedEngine {
    ghost use Rattle.std.specs.Prelude.{◌≡◌};
    ghost use Rattle.std.specs.Coded.{codes};
    ghost use Rattle.std.specs.Arc.{arc_value};
    ghost use Rattle.caches.specs.Stored.{stored_code};
    ghost use Rattle.engine.specs.Engines.{EngineValue};

    ghost Value = { EngineValue };

    ghost coded = { Prim.hlevel (codes, stored_code) };

    ghost view = { λ e. e.engine };

    ghost invariant = { λ e. (e.engine.consumer.ring ≡ arc_value e.ring) };
}

impl SeatedEngine {
    pub(crate) fn new(ring: Arc<Ring>, engine: Engine) -> SeatedEngine
        requires ring { engine.consumer.ring ≡ arc_value ring }
        ensures { result ≡ engine }
    {
        SeatedEngine { ring, engine }
    }

    /// Takes up to `most` commands, cut to 1 to 64, and applies them.
    pub(crate) fn run(&mut self, most: u32, told: &mut RunWords) -> Status
        ensures { HasRunFor most told.new self.old self.new result }
    {
        let answer = self.engine.step_run(&self.ring, most.max(1).min(64));
        *told = RunWords::from(answer);
        Status::from(answer)
    }

    /// The same for at most as many commands as there is room for completions, which it tells.
    pub(crate) fn run_completions(
        &mut self,
        most: u32,
        told: &mut RunWords,
        completions: &mut [Completion],
        count: &mut usize,
    ) -> Status
        ensures ran { HasRunCompletions most told.new completions.old completions.new count.new
            self.old self.new result }
        ensures told { length completions.old ≡ 0 → told.new ≡ told.old }
        ensures completions { length completions.old ≡ 0 → completions.new ≡ completions.old }
        ensures count { length completions.old ≡ 0 → count.new ≡ count.old }
    {
        if completions.is_empty() {
            return Status::ShortBuffer;
        }
        let most = (most as usize).min(completions.len()).max(1).min(64) as u32;
        let (answer, many) = self.engine.step_run_telling(&self.ring, most, completions);
        *told = RunWords::from(answer);
        *count = many;
        Status::from(answer)
    }

    pub(crate) fn registers(&mut self, told: &mut RegisterWords) -> Status
        ensures told { HasToldRegisters told.new self.old self.new result }
        ensures done { result ≡ Status.Done }
    {
        *told = RegisterWords::from(self.engine.registers(&self.ring));
        Status::Done
    }

    /// Goes on in a new ring of these sizes, and fills the handles with its senders.
    pub(crate) fn renew(&mut self, alloc: Global, sizes: Sizes, senders: &mut [Handle]) -> Status
        ensures renewed { HasRenewed sizes senders.old senders.new self.old self.new result }
        ensures senders { (result ≡ Status.Done) ⊎ (senders.new ≡ senders.old) }
    {
        self.engine.is_settled();
        self.engine.unit().are_own();
        if sees_waiting(&mut self.engine, &self.ring) {
            return Status::Waiting;
        }
        match successor(alloc, &self.engine, count_of(senders), sizes) {
            Ok(queue) => self.go_on(alloc, queue, senders),
            Err(status) => status,
        }
    }

    /// Goes on with a new queue's engine, and fills the handles with its senders.
    #[inline(never)]
    fn go_on(&mut self, alloc: Global, queue: Box<Queue>, senders: &mut [Handle]) -> Status
        requires whole { IsWhole queue.value }
        requires many { length queue.value.senders.items ≡ length senders.old }
        ensures gone_on { HasGoneOn queue.value senders.old senders.new self.old self.new result }
        ensures many { length senders.new ≡ length senders.old }
    {
        let Queue {
            ring,
            senders: all,
            engine,
        } = Box::into_inner(queue);
        let Ok((ring, seats)) = share(alloc, ring, all) else {
            return Status::NoMemory;
        };
        fill_senders(senders, seats);
        *self = SeatedEngine::new(ring, engine);
        Status::Done
    }

    pub(crate) fn fill(&mut self, tag: Tag, value: u64) -> Status
        ensures filled { HasFilled tag value self.old.unit self.new.unit result }
        ensures consumer { self.new ≡ record self.old { unit = self.new.unit } }
        ensures settled { IsSettledEngine self.new }
    {
        fill_status(self.engine.fill(tag, value))
    }

    pub(crate) fn evict(&mut self, tag: &Tag, told: &mut Held) -> Status
        ensures evicted { HasEvicted tag.now told.new self.old.unit self.new.unit result }
        ensures kept { IsKept result told.old told.new }
        ensures consumer { self.new ≡ record self.old { unit = self.new.unit } }
        ensures settled { IsSettledEngine self.new }
    {
        tell_entry(self.engine.evict(tag), told)
    }

    /// Evicts the entries whose tags pass, and returns how many they were.
    pub(crate) fn evict_all<T: TagTest>(&mut self, test: &T) -> u32
        ensures lost { HasLost (T.passing test.now) result self.old.unit self.new.unit }
        ensures consumer { self.new ≡ record self.old { unit = self.new.unit } }
        ensures settled { IsSettledEngine self.new }
    {
        self.engine.evict_all(test)
    }

    /// Removes the entries that a command covers, without taking it, and returns how many they were.
    pub(crate) fn invalidate(&mut self, command: &Command) -> u32
        ensures lost { HasLost (covers command.now) result self.old.unit self.new.unit }
        ensures consumer { self.new ≡ record self.old { unit = self.new.unit } }
        ensures settled { IsSettledEngine self.new }
    {
        self.engine.invalidate(command)
    }

    /// Evicts the entries that were filled before `born` commands were taken, and returns how many they were.
    pub(crate) fn evict_older(&mut self, born: u64) -> u32
        ensures lost { HasLostOlder born result self.old.unit self.new.unit }
        ensures consumer { self.new ≡ record self.old { unit = self.new.unit } }
        ensures settled { IsSettledEngine self.new }
    {
        self.engine.evict_older(born)
    }

    /// Its unit, to read it.
    pub(crate) fn unit(&self) -> &Unit
        ensures unit { result.now ≡ self.now.unit }
        ensures settled { IsSettledEngine self.now }
    {
        self.engine.is_settled();
        self.engine.unit()
    }

    pub(crate) fn acknowledge(&mut self, gerrorn: u32, remedy: Remedy) -> Status
        ensures acknowledged { HasAcknowledged gerrorn remedy self.old.unit self.new.unit result }
        ensures consumer { self.new ≡ record self.old { unit = self.new.unit } }
        ensures settled { IsSettledEngine self.new }
    {
        acknowledgement_status(self.engine.acknowledge(gerrorn, remedy))
    }
}

/// Makes what an engine goes on with, in a box. It isn't inlined, so that what it moves is off the stack when the
/// senders are seated.
#[inline(never)]
fn successor(alloc: Global, old: &Engine, senders: u32, sizes: Sizes) -> Result<Box<Queue>, Status>
    requires { AreOwn old.now.unit.caches.entries }
    ensures unused { IfOk result (λ q. IsNewRing sizes.log2 senders sizes.max_batches
        q.value.ring q.value.senders.items q.value.engine.consumer) }
    ensures entries { IfOk result (λ q.
        IsCarried sizes.capacity old.now.unit q.value.engine.unit) }
    ensures sizes { OnOk result (IsCapacity sizes.capacity) }
    ensures whole { IfOk result (λ q. IsWhole q.value) }
    ensures refused { IfErr result (λ status. IsNotRenewed sizes senders old.now status) }
{
    match renewal::successor(alloc, old, senders, sizes) {
        Ok(queue) => match Box::new(alloc, queue) {
            Ok(queue) => Ok(queue),
            Err(_) => Err(Status::NoMemory),
        },
        Err(fault) => Err(Status::from(fault)),
    }
}
