//! A consumer with the run that it read last.
ghost use Rattle.std.specs.Prelude.{◌≡◌, ◌≤◌, length, slice_get};
ghost use Rattle.ring.specs.consumer.PendingConsumers.{with_none, held_as};
ghost use Rattle.ring.specs.consumer.PendingConsumers.{FirstIsSeen, BeginsAgain, BeginsWithSeen};
ghost use Rattle.ring.specs.consumer.PendingConsumers.{HasFoundRun, IsSettledOnceTaken};
ghost use Rattle.ring.specs.consumer.PendingConsumers.{IsFirstFault, HasCompletedFor};

use crate::consumer::{Consumer, Found, PendingRun, TakenRun, Uncompleted};
use crate::device::Device;
use crate::ring::Ring;
use cmdcodec::{Ill, Raw, decode};
use ringcore::Outcome;
use std::marker::Model;

/// A consumer with the run that it read last, which stays in the ring until it is completed.
#[derive(Drop)]
pub struct PendingConsumer<D: Device> {
    /// It is lent to a call, and comes back.
    held: Option<Held<D>>,
}

impl<D: Device> Model for PendingConsumer<D> {
    ghost use Rattle.ring.specs.consumer.Pendings.{PendingValue};
    ghost use Rattle.ring.specs.consumer.PendingConsumers.{held_in, IsHeld};

    ghost Value = { PendingValue D };

    ghost view = { λ c. held_in c.held };

    ghost invariant = { λ c. IsHeld c.held };
}

impl<D: Device> PendingConsumer<D> {
    /// Begins with nothing pending.
    pub fn new(consumer: Consumer<D>) -> PendingConsumer<D>
        ensures { result ≡ with_none consumer }
    {
        PendingConsumer {
            held: Some(Held::Idle(consumer)),
        }
    }

    /// Returns the consumer; what is pending stays in the ring.
    pub fn into_consumer(self) -> Consumer<D>
        ensures consumer { result ≡ self.consumer }
        ensures seen { FirstIsSeen self.raws result.trail }
    {
        let PendingConsumer { held } = self;
        held.unwrap().into_consumer()
    }

    /// Leaves what is pending in the ring: the next take finds it again.
    pub fn put_back(&mut self)
        ensures consumer { self.new ≡ with_none self.old.consumer }
        ensures seen { FirstIsSeen self.old.raws self.new.consumer.trail }
    {
        let held = self.held.take().unwrap();
        self.held = Some(Held::Idle(held.into_consumer()));
    }

    /// Returns how many commands are pending, 0 to 64.
    pub fn len(&self) -> u32
        ensures value { result ≡ length self.now.raws }
        ensures few { result ≤ 64 }
    {
        match &self.held {
            Some(Held::Pending(run)) => run.len(),
            _ => 0,
        }
    }

    /// Returns the pending command at this place, from 0, or `None` past the last.
    pub fn get(&self, place: u32) -> Option<Raw>
        ensures { result ≡ slice_get self.now.raws place }
    {
        match &self.held {
            Some(Held::Pending(run)) => run.get(place),
            _ => None,
        }
    }

    /// Looks, tests from the head on, and reads what is ready, whatever was pending: 1 to `most`
    /// commands whose flags are in one word, which are pending then. `most` is 1 to 64.
    pub fn take_run(&mut self, ring: &Ring, most: u32) -> Found
        requires ring { self.old.consumer.ring ≡ ring.now }
        requires some { 1 ≤ most }
        requires most { most ≤ 64 }
        ensures found { HasFoundRun most self.old self.new result }
        ensures again { BeginsAgain self.old.raws self.new.raws }
        ensures seen { BeginsWithSeen self.old.consumer.trail self.new.raws }
        ensures ring { self.new.consumer.ring ≡ self.old.consumer.ring }
    {
        let held = self.held.take().unwrap();
        let (held, found) = held.take_run(ring, most);
        self.held = Some(held);
        found
    }

    /// Takes the first `count` pending commands, and then acknowledges each CMD_SYNC among them.
    /// Legal ones are completed as applied, a single illegal one as replaced. None is pending
    /// then. `device` must be settled for all that was taken and these.
    ///
    /// Errors: `Count` if `count` is 0 or more than are pending, `Illegal` if one of several is
    /// illegal. Then nothing changes.
    pub fn complete(&mut self, ring: &Ring, count: u32, device: &D) -> Result<Outcome, Uncompleted>
        requires ring { self.old.consumer.ring ≡ ring.now }
        requires settled { IsSettledOnceTaken (D.settled device.now) count self.old }
        ensures completed { HasCompletedFor count device.now self.old self.new result }
        ensures ring { self.new.consumer.ring ≡ self.old.consumer.ring }
    {
        let held = self.held.take().unwrap();
        let (held, completed) = held.complete(ring, count, device);
        self.held = Some(held);
        completed
    }
}

/// The consumer between two calls.
enum Held<D: Device> {
    Idle(Consumer<D>),
    /// It read these commands, which are still in the ring.
    Pending(PendingRun<D>),
}

impl<D: Device> Held<D> {
    fn into_consumer(self) -> Consumer<D>
        ensures consumer { result ≡ (held_as self).consumer }
        ensures seen { FirstIsSeen (held_as self).raws result.trail }
    {
        match self {
            Held::Idle(consumer) => consumer,
            Held::Pending(run) => run.put_back(),
        }
    }

    fn take_run(self, ring: &Ring, most: u32) -> (Held<D>, Found)
        requires ring { (held_as self).consumer.ring ≡ ring.now }
        requires some { 1 ≤ most }
        requires most { most ≤ 64 }
        ensures found { HasFoundRun most (held_as self) (held_as result.0) result.1 }
        ensures again { BeginsAgain (held_as self).raws (held_as result.0).raws }
        ensures seen { BeginsWithSeen (held_as self).consumer.trail (held_as result.0).raws }
        ensures ring { (held_as result.0).consumer.ring ≡ ring.now }
    {
        match self.into_consumer().take_run(ring, most) {
            TakenRun::Empty(consumer) => (Held::Idle(consumer), Found::Empty),
            TakenRun::Drained(consumer) => (Held::Idle(consumer), Found::Drained),
            TakenRun::Unwritten(consumer) => (Held::Idle(consumer), Found::Unwritten),
            TakenRun::Ready(run) => (Held::Pending(run), Found::Ready),
        }
    }

    fn complete(
        self,
        ring: &Ring,
        count: u32,
        device: &D,
    ) -> (Held<D>, Result<Outcome, Uncompleted>)
        requires ring { (held_as self).consumer.ring ≡ ring.now }
        requires settled { IsSettledOnceTaken (D.settled device.now) count (held_as self) }
        ensures done { HasCompletedFor count device.now (held_as self) (held_as result.0) result.1 }
        ensures ring { (held_as result.0).consumer.ring ≡ ring.now }
    {
        match self {
            Held::Idle(consumer) => (Held::Idle(consumer), Err(Uncompleted::Count)),
            Held::Pending(run) => complete_first(run, ring, count, device),
        }
    }
}

impl<D: Device> Drop for Held<D> {
    fn drop(self) {
        drop(self.into_consumer());
    }
}

/// Returns the fault of the first illegal command among the first `count` of a run, if any.
fn first_illegal<D: Device>(run: &PendingRun<D>, count: u32) -> Option<Ill>
    requires within { count ≤ length run.now.raws }
    ensures { IsFirstFault count run.now.raws result }
{
    for place in 0..count {
        let raw = run.get(place).unwrap();
        if let Err(ill) = decode(raw) {
            return Some(ill);
        }
    }
    None
}

/// Completes the first `count` commands of a run: legal ones as applied, a single illegal one as
/// replaced.
fn complete_first<D: Device>(
    run: PendingRun<D>,
    ring: &Ring,
    count: u32,
    device: &D,
) -> (Held<D>, Result<Outcome, Uncompleted>)
    requires ring { run.consumer.ring ≡ ring.now }
    requires settled { IsSettledOnceTaken (D.settled device.now) count run }
    ensures completed { HasCompletedFor count device.now run (held_as result.0) result.1 }
    ensures ring { (held_as result.0).consumer.ring ≡ ring.now }
{
    if count == 0 || count > run.len() {
        return (Held::Pending(run), Err(Uncompleted::Count));
    }
    match first_illegal(&run, count) {
        None => {
            let consumer = run.complete_run(ring, count, Outcome::Applied, device);
            (Held::Idle(consumer), Ok(Outcome::Applied))
        }
        Some(_) if count == 1 => {
            let consumer = run.complete_run(ring, count, Outcome::Replaced, device);
            (Held::Idle(consumer), Ok(Outcome::Replaced))
        }
        Some(ill) => (Held::Pending(run), Err(Uncompleted::Illegal(ill))),
    }
}
