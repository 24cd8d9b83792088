//! A consumer that acknowledges later.
ghost use Rattle.std.specs.Prelude.{◌≡◌, ◌∷◌, ◌++◌, ◌+◌, ◌≤◌, [], length, map, take, slice_get, Some};
ghost use Rattle.ring.specs.Runs.{Advance, Consumer as ConsumerOf, Sender as SenderOf, taken_as, taken_by, world};
ghost use Rattle.ring.specs.Runs.{control as control_of};
ghost use Rattle.qindex.specs.ControlWord.{IsControl};
ghost use Rattle.ringcore.specs.Limits.{most_reserved};
ghost use Rattle.ring.specs.table.{WentOn, IsHistory, Grew, StandsInARun};
ghost use Rattle.ring.specs.Finishing.{AreAll, AllToldOfSettled, IsDeferredEnd};
ghost use Rattle.ring.specs.consumer.Completing.{acknowledged};
ghost use Rattle.ring.specs.consumer.PendingConsumers.{HasFoundRun, BeginsWithSeen, IsFirst};
ghost use Rattle.ring.specs.consumer.Deferring.{deferring, pending_of, settled_raws, unsettled_raws};

use crate::consumer::{Commands, Consumer, ConsumerPort, Found, Lent};
use crate::device::Device;
use crate::ring::Ring;
use crate::sender::Sender;
use crate::summary::Summary;
use cmdcodec::Raw;
use progress::waiting_law;
use qindex::Control;
use ringcore::{counts_law, laws, world_law};
use std::marker::Model;

/// Takes a ring's commands before they are settled, so that their slots are free at once, and acknowledges each
/// CMD_SYNC once it is settled with all before it.
#[derive(Drop)]
pub struct DeferringConsumer<D: Device> {
    port: ConsumerPort,
    /// What was read from the head on and not taken.
    commands: Commands,
    /// How many of the commands that were taken are settled.
    settled: u64,
    /// The device lent last.
    lent: Lent<D>,
}

impl<D: Device> Model for DeferringConsumer<D> {
    ghost use Rattle.ring.specs.consumer.Consumers.{consumer_of};
    ghost use Rattle.ring.specs.consumer.Deferring.{DeferringValue, IsDeferring, AreRead};

    ghost Value = { DeferringValue D };

    ghost view = { λ c. record { consumer = consumer_of c.port c.lent; raws = c.commands; settled = c.settled } };

    ghost invariant = { λ c. IsDeferring c.port.trail c.settled × AreRead c.port c.commands };
}

impl<D: Device> DeferringConsumer<D> {
    /// Begins with all that the consumer took, which is settled.
    pub fn new(consumer: Consumer<D>) -> DeferringConsumer<D>
        ensures { result ≡ deferring consumer }
    {
        laws::consumer_trail();
        let Consumer {
            port,
            mut commands,
            lent,
        } = consumer;
        commands.clear();
        let settled = port.taken();
        DeferringConsumer {
            port,
            commands,
            settled,
            lent,
        }
    }

    /// Returns the consumer, once all that it took is settled.
    pub fn into_consumer(self) -> Consumer<D>
        requires { self.settled ≡ taken_by self.consumer.trail }
        ensures { result ≡ self.consumer }
    {
        laws::consumer_trail();
        let DeferringConsumer {
            port,
            commands,
            settled: _,
            lent,
        } = self;
        Consumer {
            port,
            commands,
            lent,
        }
    }

    /// A witness that all its steps are steps of one run of the ring. It does nothing.
    pub fn trail_stands_in_a_run(&self)
        ensures trail { StandsInARun self.now.consumer.ring.made_with ConsumerOf
            self.now.consumer.trail }
        ensures history { IsHistory self.now.consumer.ring.made_with ConsumerOf
            self.now.consumer.trail self.now.consumer.history }
    {
        self.port.port.trail_stands_in_a_run();
    }

    /// Returns how many commands it has taken, at most `2^46`.
    pub fn taken(&self) -> u64
        ensures value { result ≡ taken_by self.now.consumer.trail }
        ensures few { result ≤ most_reserved }
    {
        self.port.taken()
    }

    /// Returns how many of them are settled.
    pub fn settled(&self) -> u64
        ensures value { result ≡ self.now.settled }
        ensures few { result ≤ taken_by self.now.consumer.trail }
    {
        self.settled
    }

    /// Returns how many commands it has read and not taken, 0 to 64.
    pub fn len(&self) -> u32
        ensures value { result ≡ length self.now.raws }
        ensures few { result ≤ 64 }
    {
        self.commands.len()
    }

    /// Returns the command at this place of those, from 0, or `None` past the last.
    pub fn get(&self, place: u32) -> Option<Raw>
        ensures { result ≡ slice_get self.now.raws place }
    {
        self.commands.get(place)
    }

    /// Looks, tests from the head on, and reads what is ready, whatever it had read: 1 to `most` commands
    /// whose flags are in one word. `most` is 1 to 64.
    pub fn take_run(&mut self, ring: &Ring, most: u32) -> Found
        requires ring { self.old.consumer.ring ≡ ring.now }
        requires some { 1 ≤ most }
        requires most { most ≤ 64 }
        ensures found { HasFoundRun most (pending_of self.old) (pending_of self.new) result }
        ensures settled { self.new.settled ≡ self.old.settled }
        ensures ring { self.new.consumer.ring ≡ self.old.consumer.ring }
    {
        self.commands.clear();
        let seen = self.port.look(ring);
        self.port.ends_tell_all();
        if seen.prod.get() == seen.cons.get() {
            if seen.closed {
                return Found::Drained;
            }
            return Found::Empty;
        }
        let found = self.port.test(ring, most);
        if found == 0 {
            waiting_law();
            self.port.knows_a_run();
            return Found::Unwritten;
        }
        self.port.read_run(ring, found, &mut self.commands);
        Found::Ready
    }

    /// Takes the first `count` of the commands that it has read. Their slots are free from then on, and none
    /// of their CMD_SYNCs is acknowledged.
    pub fn advance(&mut self, ring: &Ring, count: u32)
        requires ring { self.old.consumer.ring ≡ ring.now }
        requires some { 1 ≤ count }
        requires most { count ≤ length self.old.raws }
        ensures consumer { record self.new.consumer { history = [] } ≡ record self.old.consumer
            { trail = Advance (take count self.old.raws) ∷ self.old.consumer.trail; history = [] } }
        ensures history { Grew ConsumerOf self.old.consumer.trail self.new.consumer.trail
            self.old.consumer.history self.new.consumer.history }
        ensures raws { self.new.raws ≡ [] }
        ensures settled { self.new.settled ≡ self.old.settled }
        ensures settled_raws { settled_raws self.new ≡ settled_raws self.old }
        ensures unsettled { unsettled_raws self.new
            ≡ unsettled_raws self.old ++ take count self.old.raws }
    {
        laws::consumer_trail();
        self.port.advance(ring, &self.commands, count);
        self.commands.clear();
    }

    /// Is told that the first command that isn't settled is so, and acknowledges it if it is a CMD_SYNC. `device`
    /// must be settled for it and all before it.
    pub fn settle(&mut self, ring: &Ring, raw: Raw, device: &D)
        requires ring { self.old.consumer.ring ≡ ring.now }
        requires next { IsFirst raw (unsettled_raws self.old) }
        requires settled { D.settled device.now (map taken_as (settled_raws self.old ++ raw ∷ [])) }
        ensures consumer { record self.new.consumer { history = [] }
            ≡ record self.old.consumer {
              trail = acknowledged raw self.old.consumer.trail;
              history =
                  [];
              lent = Some device.now;
            } }
        ensures history { Grew ConsumerOf self.old.consumer.trail self.new.consumer.trail
            self.old.consumer.history self.new.consumer.history }
        ensures raws { self.new.raws ≡ [] }
        ensures settled { self.new.settled ≡ self.old.settled + 1 }
        ensures settled_raws { settled_raws self.new ≡ settled_raws self.old ++ raw ∷ [] }
        ensures unsettled { unsettled_raws self.old ≡ raw ∷ unsettled_raws self.new }
    {
        laws::consumer_trail();
        counts_law();
        self.port.knows_its_steps();
        self.port.is_within_limits();
        self.port.acknowledge(ring, raw);
        self.commands.clear();
        self.settled += 1;
        self.lent = Lent::of(device);
    }

    /// A witness, while the ring runs, that its steps and those of a sender are steps of one run, which both
    /// know from now on. Whatever number the sender was told, it was told in that run, and all that was reserved
    /// before that CMD_SYNC is settled, and the CMD_SYNC. Otherwise both stay as they are.
    ///
    /// Returns what the control word says at this moment, which is what that run leaves in it.
    pub fn meet(&mut self, ring: &Ring, sender: &mut Sender) -> Control
        requires ring { self.old.consumer.ring ≡ ring.now }
        requires sender { sender.old.ring ≡ ring.now }
        ensures consumer { record self.new.consumer { history = [] }
            ≡ record self.old.consumer { history = [] } }
        ensures sender { record sender.new { history = [] } ≡ record sender.old { history = [] } }
        ensures raws { self.new.raws ≡ self.old.raws }
        ensures settled { self.new.settled ≡ self.old.settled }
        ensures one { sender.new.history ≡ self.new.consumer.history }
        ensures of_consumer { IsHistory self.old.consumer.ring.made_with ConsumerOf
            self.old.consumer.trail self.new.consumer.history }
        ensures of_sender { IsHistory self.old.consumer.ring.made_with (SenderOf sender.old.number)
            sender.old.trail self.new.consumer.history }
        ensures known_to_consumer { WentOn ConsumerOf self.old.consumer.history
            self.new.consumer.history }
        ensures known_to_sender { WentOn (SenderOf sender.old.number) sender.old.history
            self.new.consumer.history }
        ensures told { AllToldOfSettled (settled_raws self.old) self.new.consumer.history
            sender.old.number sender.old.trail }
        ensures control { IsControl self.old.consumer.ring.made_with.geometry result }
        ensures current { result ≡ control_of self.old.consumer.ring.made_with.geometry
            (world self.new.consumer.history) }
    {
        world_law();
        laws::consumer_trail();
        counts_law();
        let control = self.port.port.meet(ring, &mut sender.port);
        self.port.port.trail_stands_in_a_run();
        sender.port.trail_stands_in_a_run();
        control
    }

    /// Joins it and all senders of its ring, whatever is settled. `senders` has them in the order of their
    /// numbers. One run has all their steps, and whatever a sender was told in it is settled.
    pub fn finish(self, ring: Ring, senders: Vec<Sender>) -> Summary
        requires senders { AreAll ring senders.items }
        requires consumer { self.consumer.ring ≡ ring }
        ensures { IsDeferredEnd ring senders.items self result }
    {
        laws::consumer_trail();
        counts_law();
        let DeferringConsumer {
            port,
            commands: _,
            settled: _,
            lent: _,
        } = self;
        ring.join(senders, port)
    }
}
