//! Taking commands and showing them, whoever has a forwarder's parts.
ghost use Rattle.std.specs.Prelude.{◌≡◌, ◌≤◌, ◌+◌, ℕ, length};
ghost use Rattle.ringcore.specs.declared.world.event.Who.TheVariants.{Consumer as ConsumerOf};
ghost use Rattle.ring.specs.table.Histories.{Grew};
ghost use Rattle.ring.specs.consumer.Deferring.{settled_raws, pending_of};
ghost use Rattle.hardware_queue.specs.Flights.{NoSyncIsLost};
ghost use Rattle.hardware_queue.specs.Kept.{IsInFlight};
ghost use Rattle.hardware_queue.specs.Steps.{HasForwarded, IsDone};
ghost use Rattle.hardware_queue.specs.declared.state.QueueState.TheVariants.{Broken};

use crate::command_queue::CommandQueue;
use crate::flight::{Flight, InFlight};
use crate::forwarded::Forwarded;
use crate::hardware_form::pass_run;
use crate::owner::Owner;
use crate::state::QueueState;
use ring::{DeferringConsumer, Found, Outcome, Ring, growth_adds_up};
use ringcore::laws;

/// Takes what was read up to the first illegal command, and shows the hardware what it gets for it; or takes an illegal
/// command, if that comes first.
fn take_in<Q: CommandQueue>(
    consumer: &mut DeferringConsumer<Owner<Q>>,
    owner: &mut Owner<Q>,
    flight: &mut Flight,
    ring: &Ring,
) -> Forwarded
    requires ring { consumer.old.consumer.ring ≡ ring.now }
    requires some { 1 ≤ length consumer.old.raws }
    requires room { length flight.old.items + length consumer.old.raws ≤ flight.old.capacity }
    requires flight { IsInFlight (Q.queue owner.old.queue) owner.old.state consumer.old flight.old }
    ensures done { IsDone (pending_of consumer.old) consumer.new.consumer
        (Q.queue owner.old.queue) (Q.queue owner.new.queue) result }
    ensures flight { IsInFlight (Q.queue owner.new.queue) owner.new.state consumer.new flight.new }
    ensures lost { (Q.queue owner.new.queue).lost ≡ (Q.queue owner.old.queue).lost }
    ensures repeated { (Q.queue owner.new.queue).repeated ≡ (Q.queue owner.old.queue).repeated }
    ensures syncs { NoSyncIsLost (Q.queue owner.old.queue)
        → NoSyncIsLost (Q.queue owner.new.queue) }
    ensures state { owner.new.state ≡ owner.old.state }
    ensures settled { settled_raws consumer.new ≡ settled_raws consumer.old }
    ensures history { Grew ConsumerOf consumer.old.consumer.trail consumer.new.consumer.trail
        consumer.old.consumer.history consumer.new.consumer.history }
    ensures ring { consumer.new.consumer.ring ≡ consumer.old.consumer.ring }
{
    laws::consumer_trail();
    owner.stopped_is_in_flight();
    let all = pass_run(consumer);
    if all.is_empty() {
        let raw = consumer.get(0).unwrap();
        let outcome = Outcome::Replaced;
        flight.push(InFlight { raw, outcome });
        consumer.advance(ring, 1);
        return Forwarded::Replaced(raw);
    }
    let count = owner.push(all.as_slice());
    flight.push_run(consumer, count);
    consumer.advance(ring, count);
    Forwarded::Shown(count)
}

/// Takes as many commands as fit of those that are ready, and shows the hardware what it gets for them.
pub fn forward_with<Q: CommandQueue>(
    consumer: &mut DeferringConsumer<Owner<Q>>,
    owner: &mut Owner<Q>,
    flight: &mut Flight,
    ring: &Ring,
) -> Forwarded
    requires ring { consumer.old.consumer.ring ≡ ring.now }
    requires flight { IsInFlight (Q.queue owner.old.queue) owner.old.state consumer.old flight.old }
    ensures forwarded { HasForwarded Q.queue (record { consumer = consumer.old; owner = owner.old })
        (record { consumer = consumer.new; owner = owner.new }) result }
    ensures broken { (word : ℕ) → owner.old.state ≡ Broken word → result ≡ Forwarded.Broken word }
    ensures flight { IsInFlight (Q.queue owner.new.queue) owner.new.state consumer.new flight.new }
    ensures lost { (Q.queue owner.new.queue).lost ≡ (Q.queue owner.old.queue).lost }
    ensures repeated { (Q.queue owner.new.queue).repeated ≡ (Q.queue owner.old.queue).repeated }
    ensures syncs { NoSyncIsLost (Q.queue owner.old.queue)
        → NoSyncIsLost (Q.queue owner.new.queue) }
    ensures state { owner.new.state ≡ owner.old.state }
    ensures settled { settled_raws consumer.new ≡ settled_raws consumer.old }
    ensures history { Grew ConsumerOf consumer.old.consumer.trail consumer.new.consumer.trail
        consumer.old.consumer.history consumer.new.consumer.history }
    ensures ring { consumer.new.consumer.ring ≡ consumer.old.consumer.ring }
{
    growth_adds_up();
    if let QueueState::Broken(word) = owner.state() {
        return Forwarded::Broken(word);
    }
    let room = flight.room();
    if room == 0 {
        return Forwarded::Full;
    }
    match consumer.take_run(ring, room.min(64)) {
        Found::Empty => Forwarded::Empty,
        Found::Drained => Forwarded::Drained,
        Found::Unwritten => Forwarded::Unwritten,
        Found::Ready => take_in(consumer, owner, flight, ring),
    }
}
