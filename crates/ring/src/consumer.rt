//! The consumer, who takes commands.
ghost use Rattle.std.specs.Prelude.{◌≡◌, ◌∷◌, ◌≤◌, length, []};
ghost use Rattle.ring.specs.Runs.{Raw as RawOf, Look, Consumer as ConsumerOf, Sender as SenderOf, raws_by, taken_by, found_ready, world, control as control_of};
ghost use Rattle.qindex.specs.Positions.{size};
ghost use Rattle.qindex.specs.ControlWord.{IsControl};
ghost use Rattle.ringcore.specs.Limits.{most_reserved};
ghost use Rattle.ring.specs.table.{StandsInARun, WentOn, IsHistory, GrewBy};
ghost use Rattle.ring.specs.Finishing.{WasToldAll};
ghost use Rattle.ring.specs.consumer.Pendings.{HasSeen, HasReadRun, reads_from};
ghost use Rattle.ring.specs.consumer.Completing.{AreClosingSyncs};
ghost use Rattle.ring.specs.consumer.Taking.{HasTaken, HasTakenRun, IsReadyWith, BeginsWith, IsOfRing, RunIsOfRing};

mod commands;
mod consumer_port;
mod deferring_consumer;
mod lent;
mod pending;
mod pending_consumer;
mod pending_run;
mod taken;
mod uncompleted;

use crate::device::Device;
use crate::ring::Ring;
use crate::sender::Sender;
pub use commands::Commands;
pub use consumer_port::ConsumerPort;
pub use deferring_consumer::DeferringConsumer;
pub use lent::Lent;
pub use pending::Pending;
pub use pending_consumer::PendingConsumer;
pub use pending_run::PendingRun;
use progress::waiting_law;
use qindex::Control;
use ringcore::world_law;
use std::marker::Model;
pub use taken::{Found, Taken, TakenRun};
pub use uncompleted::Uncompleted;

/// Takes a ring's commands, in the order of their reservation, for a device of type `D`.
#[derive(Drop)]
pub struct Consumer<D: Device> {
    pub(crate) port: ConsumerPort,
    /// Room for the commands of a run.
    pub(crate) commands: Commands,
    /// The device lent last.
    pub(crate) lent: Lent<D>,
}

impl<D: Device> Model for Consumer<D> {
    ghost use Rattle.ring.specs.consumer.Consumers.{ConsumerValue, consumer_of, IsCurrent};

    ghost Value = { ConsumerValue D };

    ghost view = { λ d. consumer_of d.port d.lent };

    ghost invariant = { λ d. IsCurrent d.port.trail };
}

impl<D: Device> Consumer<D> {
    /// A witness that all its steps are steps of one run of the ring. It does nothing.
    pub fn trail_stands_in_a_run(&self)
        ensures trail { StandsInARun self.now.ring.made_with ConsumerOf self.now.trail }
        ensures history { IsHistory self.now.ring.made_with ConsumerOf self.now.trail
            self.now.history }
    {
        self.port.port.trail_stands_in_a_run();
    }

    /// A witness that each CMD_SYNC that it took is the closing CMD_SYNC of a sender. It does nothing.
    pub fn syncs_are_closing(&self)
        ensures { AreClosingSyncs (raws_by self.now.trail) }
    {
        self.port.syncs_are_closing();
    }

    /// Returns what the control word says at this moment: SMMU_CMDQ_PROD, SMMU_CMDQ_CONS, and whether the
    /// ring is closed.
    pub fn look(&mut self, ring: &Ring) -> Control
        requires { self.old.ring ≡ ring.now }
        ensures trail { record self.new { history = [] }
            ≡ record self.old { trail = Look result ∷ self.old.trail; history = [] } }
        ensures control { IsControl self.old.ring.made_with.geometry result }
        ensures history { GrewBy ConsumerOf (Look result) self.old.history self.new.history }
        ensures current { result
            ≡ control_of self.old.ring.made_with.geometry (world self.new.history) }
    {
        self.port.look(ring)
    }

    /// A witness, while the ring runs, that its steps and those of a sender are steps of one run, which both
    /// know from now on. Whatever number the sender was told, it was told in that run. Otherwise both stay as
    /// they are.
    ///
    /// Returns what the control word says at this moment, which is what that run leaves in it.
    pub fn meet(&mut self, ring: &Ring, sender: &mut Sender) -> Control
        requires ring { self.old.ring ≡ ring.now }
        requires sender { sender.old.ring ≡ ring.now }
        ensures consumer { record self.new { history = [] } ≡ record self.old { history = [] } }
        ensures sender { record sender.new { history = [] } ≡ record sender.old { history = [] } }
        ensures one { sender.new.history ≡ self.new.history }
        ensures of_consumer { IsHistory self.old.ring.made_with ConsumerOf self.old.trail
            self.new.history }
        ensures of_sender { IsHistory self.old.ring.made_with (SenderOf sender.old.number)
            sender.old.trail self.new.history }
        ensures known_to_consumer { WentOn ConsumerOf self.old.history self.new.history }
        ensures known_to_sender { WentOn (SenderOf sender.old.number) sender.old.history
            self.new.history }
        ensures told { WasToldAll self.new.history sender.old.number sender.old.trail }
        ensures control { IsControl self.old.ring.made_with.geometry result }
        ensures current { result
            ≡ control_of self.old.ring.made_with.geometry (world self.new.history) }
    {
        world_law();
        let control = self.port.port.meet(ring, &mut sender.port);
        self.port.port.trail_stands_in_a_run();
        sender.port.trail_stands_in_a_run();
        control
    }

    /// Returns how many commands it has taken, at most `2^46`.
    pub fn taken(&self) -> u64
        ensures value { result ≡ taken_by self.now.trail }
        ensures few { result ≤ most_reserved }
    {
        self.port.taken()
    }

    /// Looks, tests the head, and reads the command there.
    pub fn take(self, ring: &Ring) -> Taken<D>
        requires { self.ring ≡ ring.now }
        ensures taken { HasTaken self result }
        ensures ring { IsOfRing self.ring result }
        ensures again { (raw : RawOf) → HasSeen self.trail raw → IsReadyWith raw result }
    {
        match self.take_run(ring, 1) {
            TakenRun::Empty(consumer) => Taken::Empty(consumer),
            TakenRun::Drained(consumer) => Taken::Drained(consumer),
            TakenRun::Unwritten(consumer) => Taken::Unwritten(consumer),
            TakenRun::Ready(run) => Taken::Ready(Pending { run }),
        }
    }

    /// Looks, tests from the head on, and reads what is ready: 1 to `most` commands whose flags are in one
    /// word. `most` is 1 to 64.
    pub fn take_run(self, ring: &Ring, most: u32) -> TakenRun<D>
        requires ring { self.ring ≡ ring.now }
        requires some { 1 ≤ most }
        requires most { most ≤ 64 }
        ensures taken { HasTakenRun most self result }
        ensures ring { RunIsOfRing self.ring result }
        ensures again { (raw : RawOf) → HasSeen self.trail raw → BeginsWith raw result }
    {
        let mut consumer = self;
        let seen = consumer.look(ring);
        consumer.port.knows_its_steps();
        consumer.port.ends_tell_all();
        if seen.prod.get() == seen.cons.get() {
            return if seen.closed {
                TakenRun::Drained(consumer)
            } else {
                TakenRun::Empty(consumer)
            };
        }
        let found = consumer.port.test(ring, most);
        consumer.port.knows_its_steps();
        if found == 0 {
            waiting_law();
            consumer.port.knows_a_run();
            return TakenRun::Unwritten(consumer);
        }
        let Consumer {
            mut port,
            mut commands,
            lent,
        } = consumer;
        port.read_run(ring, found, &mut commands);
        port.knows_its_steps();
        TakenRun::Ready(PendingRun {
            port,
            commands,
            lent,
        })
    }
}
