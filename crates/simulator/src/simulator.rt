//! The queue with its unit.
ghost use Rattle.std.specs.Prelude.{◌≡◌, ◌<◌, IfOk, IfErr, OnOk, OnErr, Err, true, false, None};
ghost use Rattle.std.specs.FinMap as finite;
ghost use Rattle.ringcore.specs.machine.Open.{is_open};
ghost use Rattle.ringcore.specs.machine.Faults.{has_sender};
ghost use Rattle.ring.specs.table.Keeping.{RunStands};
ghost use Rattle.simulator.specs.{shape_fault, IsNotMade, filled, evicted, looked, closed, asked, reserved, published_by, sent, stepped, acknowledged, Stands, Does, MayDo, HasOpen, Tells};
ghost use Rattle.simulator.specs.State.{made, mine, entries, counted, registers_told};
ghost use Rattle.simulator.specs.queue.{ring_in};

use crate::queue::{Queue, Reserved};
use crate::shape::{Shape, ShapeFault};
use batch::{Batch, BorrowedBatch};
use caches::{CacheFault, Caches, Entry, Tag};
use engine::{AckFault, Counts, Registers, Remedy, StepAnswer, Unit};
use qindex::Control;
use ring::{Cause, IdleConsumer};
use ringcore::ring_geometry;
use std::alloc::Global;
use std::marker::Model;

/// A running ring with its senders, and the unit that takes what they send: one owner takes every step.
#[derive(Drop)]
pub struct Simulator {
    queue: Queue,
    /// Borrows its seat for each step, and is back after it.
    consumer: Option<IdleConsumer<Unit>>,
    unit: Unit,
}

impl Model for Simulator {
    ghost use Rattle.std.specs.Coded.{codes};
    ghost use Rattle.caches.specs.Stored.{stored_code};
    ghost use Rattle.simulator.specs.{SimulatorValue, IsSimulator};

    ghost Value = { SimulatorValue };

    ghost coded = { Prim.hlevel (codes, stored_code) };

    ghost view = { λ s. record { queue = s.queue; unit = s.unit } };

    ghost invariant = { λ s. IsSimulator s.queue s.consumer s.unit };
}

impl Simulator {
    /// Returns a simulator to which nothing has happened yet.
    ///
    /// Errors, in this order: N1, N2, N3 and C4 if a number of the shape is out of range; out of memory.
    pub fn new(alloc: Global, shape: &Shape) -> Result<Simulator, ShapeFault>
        ensures made { IfOk result (λ simulator. Stands simulator (made shape.now)) }
        ensures numbers { IfOk result (λ simulator. shape_fault shape.now ≡ None) }
        ensures refused { IfErr result (λ fault. IsNotMade (shape_fault shape.now) fault) }
    {
        if let Err(fault) = ring_geometry(shape.log2, shape.senders, shape.max_batches) {
            return Err(ShapeFault::Ring(fault));
        }
        let Ok(caches) = Caches::new(alloc, shape.capacity) else {
            return Err(ShapeFault::Capacity);
        };
        match Queue::new(alloc, shape.log2, shape.senders, shape.max_batches) {
            Ok((queue, consumer)) => Ok(Simulator {
                queue,
                consumer: Some(consumer),
                unit: Unit::new(caches),
            }),
            Err(fault) => Err(ShapeFault::Ring(fault)),
        }
    }

    /// Shows that the run of any state it stands for is a run of the ring: with some words the ring stands as after it,
    /// and only the ring's senders and its consumer took steps. It does nothing.
    pub fn run_stands(&self)
        ensures { Tells self.now (λ state. RunStands state.ring state.run) }
    {
        self.queue.run_stands();
    }

    /// Whether the ring has a sender of this number.
    pub fn has_sender(&self, sender: u32) -> bool
        ensures told { Tells self.now (λ state. result ≡ has_sender state.ring sender) }
        ensures there { result ≡ true → sender < (ring_in self.now.queue).senders }
    {
        self.queue.has_sender(sender)
    }

    /// Whether a sender has an open reservation.
    pub fn is_open(&self, sender: u32) -> bool
        requires { sender < (ring_in self.now.queue).senders }
        ensures told { Tells self.now (λ state. result ≡ is_open (mine sender state)) }
        ensures is { HasOpen self.now sender result }
    {
        self.queue.is_open(sender)
    }

    /// Tries once, as a sender, to reserve a batch, closed with a CMD_SYNC or not.
    ///
    /// Errors, in this order: Q4, Q5, Q1, Q2.
    pub fn reserve(&mut self, sender: u32, batch: Batch, closes: bool) -> Result<Reserved, Cause>
        requires sender { sender < (ring_in self.old.queue).senders }
        requires settled { HasOpen self.old sender false }
        ensures done { Does self.old self.new result (reserved sender batch closes) }
        ensures opened { OnOk result (HasOpen self.new sender true) }
        ensures ring { ring_in self.new.queue ≡ ring_in self.old.queue }
    {
        // For its clause `body`: a batch has a command.
        batch.len();
        self.queue.reserve(sender, batch, closes)
    }

    /// Tries once, as a sender, to reserve a batch and publishes it if that worked. Returns its number, if it has one.
    ///
    /// Errors: those of `reserve`.
    pub fn send(
        &mut self,
        sender: u32,
        batch: BorrowedBatch<'_>,
        closes: bool,
    ) -> Result<Option<u32>, Cause>
        requires sender { sender < (ring_in self.old.queue).senders }
        requires settled { HasOpen self.old sender false }
        ensures { Does self.old self.new result (sent sender batch.entry closes) }
    {
        self.queue.send(sender, batch, closes)
    }

    /// Writes and publishes a sender's open reservation. Returns the number of its batch, if it has one.
    pub fn publish(&mut self, sender: u32) -> Option<u32>
        requires sender { sender < (ring_in self.old.queue).senders }
        requires opened { HasOpen self.old sender true }
        ensures { Does self.old self.new result (published_by sender) }
    {
        self.queue.publish(sender)
    }

    /// Looks as a sender: returns both indexes, and whether the ring is closed.
    pub fn look(&mut self, sender: u32) -> Control
        requires { sender < (ring_in self.old.queue).senders }
        ensures { Does self.old self.new result (looked sender) }
    {
        self.queue.look(sender)
    }

    /// Closes as a sender: nothing is reserved after it.
    pub fn close(&mut self, sender: u32)
        requires { sender < (ring_in self.old.queue).senders }
        ensures { Does self.old self.new tt (closed sender) }
    {
        self.queue.close(sender)
    }

    /// Asks as a sender, and returns the number up to which its batches are completed.
    pub fn done_up_to(&mut self, sender: u32) -> u32
        requires { sender < (ring_in self.old.queue).senders }
        ensures { Does self.old self.new result (asked sender) }
    {
        self.queue.ask(sender)
    }
}

impl Simulator {
    /// Inserts an entry, born now, and returns the one of its tag that was held before.
    ///
    /// Errors, in this order: C2 if its block isn't well formed; C1 if its tag is new and the caches are full; C3 if
    /// its tag is new and memory runs out.
    pub fn fill(&mut self, tag: Tag, value: u64) -> Result<Option<Entry>, CacheFault>
        ensures { MayDo self.old self.new result (λ wanting. filled wanting tag value) }
    {
        self.unit.fill(tag, value)
    }

    /// Removes the entry of this tag, and returns it.
    pub fn evict(&mut self, tag: &Tag) -> Option<Entry>
        ensures { Does self.old self.new result (evicted tag.now) }
    {
        self.unit.evict(tag)
    }

    /// Returns the entry of this tag, if one is held.
    pub fn lookup(&self, tag: &Tag) -> Option<Entry>
        ensures { Tells self.now (λ state. result ≡ finite.get (entries state) tag.now) }
    {
        self.unit.lookup(tag)
    }

    /// Returns all entries that are held, in the order of their tags.
    ///
    /// Errors: C3 if memory runs out, and no other.
    pub fn entries(&self) -> Result<Vec<Entry>, CacheFault>
        ensures ok { IfOk result (λ list.
            Tells self.now (λ state. list.items ≡ finite.values (entries state))) }
        ensures err { OnErr result (result ≡ Err CacheFault.NoMemory) }
    {
        self.unit.entries()
    }

    /// Writes SMMU_GERRORN, as software, and says what becomes of the command at which consumption stopped.
    ///
    /// Errors, in this order: G1 if no error is active; G2 if CMDQ_ERR of the word isn't that of SMMU_GERROR.
    pub fn acknowledge(&mut self, gerrorn: u32, remedy: Remedy) -> Result<(), AckFault>
        ensures { Does self.old self.new result (acknowledged gerrorn remedy) }
    {
        self.unit.acknowledge(gerrorn, remedy)
    }

    /// Takes at most one command: applies and completes it, or stops at it, or completes it without effect if software
    /// said so. It is the engine's own step.
    pub fn step(&mut self) -> StepAnswer
        ensures { Does self.old self.new result stepped }
    {
        let idle = self.consumer.take().unwrap();
        let (idle, answer) = self.queue.step(idle, &mut self.unit);
        self.consumer = Some(idle);
        answer
    }

    /// Returns the queue's registers.
    pub fn registers(&mut self) -> Registers
        ensures { Does self.old self.new result registers_told }
    {
        let control = self.queue.control();
        let (err, gerror, gerrorn) = self.unit.error();
        Registers {
            prod: control.prod_register(),
            cons: control.cons_register(err),
            gerror,
            gerrorn,
        }
    }

    /// Returns the counts of the commands taken.
    pub fn counts(&self) -> Counts
        ensures { Tells self.now (λ state. result ≡ counted state.run state.history) }
    {
        self.unit.counts()
    }
}
