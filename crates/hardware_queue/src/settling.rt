//! Settling what the hardware has consumed, whoever has a forwarder's parts.
ghost use Rattle.std.specs.Prelude.{◌≡◌, ◌≤◌, ◌∷◌, [], ℕ, length, IfSome, IfNone};
ghost use Rattle.ringcore.specs.declared.world.event.Who.TheVariants.{Consumer as ConsumerOf};
ghost use Rattle.ring.specs.table.Histories.{Grew};
ghost use Rattle.ring.specs.consumer.Deferring.{settled_raws, unsettled_raws};
ghost use Rattle.hardware_queue.specs.Fates.{IsKnown};
ghost use Rattle.hardware_queue.specs.declared.state.QueueState.TheVariants.{Broken};
ghost use Rattle.hardware_queue.specs.Owners.{HasPolled, IsBroken, state_after};
ghost use Rattle.hardware_queue.specs.Flights.{count_passed, BeginsLegal, NoSyncIsLost};
ghost use Rattle.hardware_queue.specs.Kept.{IsBeingSettled, IsInFlight};
ghost use Rattle.hardware_queue.specs.Steps.{HasSettled, HasSettledOne, HasSettledAll, HasSettledAt};

use crate::command_queue::CommandQueue;
use crate::fates::Fates;
use crate::flight::Flight;
use crate::owner::Owner;
use crate::queue_progress::Progress;
use crate::state::QueueState;
use ring::{DeferringConsumer, Outcome, Ring, growth_adds_up};
use ringcore::{counts_law, laws};

/// Returns how many commands the hardware was shown for one with this outcome.
fn count_shown(outcome: Outcome) -> u32
    ensures { result ≡ count_passed outcome }
{
    match outcome {
        Outcome::Applied => 1,
        Outcome::Replaced => 0,
    }
}

/// Settles the oldest command in flight, if it is illegal or one of `left` that the hardware has consumed. Returns how
/// many of these are left then, or `None` where nothing can be settled.
fn settle_first<Q: CommandQueue>(
    consumer: &mut DeferringConsumer<Owner<Q>>,
    owner: &Owner<Q>,
    flight: &mut Flight,
    fates: &mut Fates,
    ring: &Ring,
    left: u32,
) -> Option<u32>
    requires ring { consumer.old.consumer.ring ≡ ring.now }
    requires fates { IsKnown (Q.queue owner.now.queue).lost (settled_raws consumer.old)
        consumer.old.consumer.ring.made_with.senders fates.old }
    requires order { (Q.queue owner.now.queue).consumed ≤ length (Q.queue owner.now.queue).shown }
    requires flight { IsBeingSettled (Q.queue owner.now.queue) consumer.old flight.old left }
    ensures fates { IfSome result (λ rest.
        IsKnown (Q.queue owner.now.queue).lost (settled_raws consumer.new)
        consumer.new.consumer.ring.made_with.senders fates.new) }
    ensures fates_kept { IfNone result (fates.new ≡ fates.old) }
    ensures flight { IfSome result (IsBeingSettled (Q.queue owner.now.queue) consumer.new
        flight.new) }
    ensures settled { IfSome result (λ rest. HasSettledOne consumer.old consumer.new) }
    ensures history { IfSome result (λ rest. Grew ConsumerOf
        consumer.old.consumer.trail consumer.new.consumer.trail
        consumer.old.consumer.history consumer.new.consumer.history) }
    ensures kept { IfNone result ((consumer.new ≡ consumer.old) × (flight.new ≡ flight.old)) }
    ensures none { IfNone result ((left ≡ 0) × BeginsLegal (unsettled_raws consumer.old)) }
    ensures ring { consumer.new.consumer.ring ≡ consumer.old.consumer.ring }
{
    let Some(first) = flight.front() else {
        return None;
    };
    let shown = count_shown(first.outcome);
    if left < shown {
        return None;
    }
    counts_law();
    laws::consumer_trail();
    fates.are_numbered();
    consumer.trail_stands_in_a_run();
    fates.settle(first);
    flight.pop();
    consumer.settle(ring, first.raw, owner);
    Some(left - shown)
}

/// Settles so many commands that the hardware has consumed, and the illegal ones ahead of the next.
fn settle_all<Q: CommandQueue>(
    consumer: &mut DeferringConsumer<Owner<Q>>,
    owner: &Owner<Q>,
    flight: &mut Flight,
    fates: &mut Fates,
    ring: &Ring,
    consumed: u32,
)
    requires ring { consumer.old.consumer.ring ≡ ring.now }
    requires fates { IsKnown (Q.queue owner.now.queue).lost (settled_raws consumer.old)
        consumer.old.consumer.ring.made_with.senders fates.old }
    requires order { (Q.queue owner.now.queue).consumed ≤ length (Q.queue owner.now.queue).shown }
    requires flight { IsBeingSettled (Q.queue owner.now.queue) consumer.old flight.old consumed }
    ensures fates { IsKnown (Q.queue owner.now.queue).lost (settled_raws consumer.new)
        consumer.new.consumer.ring.made_with.senders fates.new }
    ensures settled { HasSettledAll (Q.queue owner.now.queue) consumer.old consumer.new }
    ensures flight { IsBeingSettled (Q.queue owner.now.queue) consumer.new flight.new 0 }
    ensures history { Grew ConsumerOf consumer.old.consumer.trail consumer.new.consumer.trail
        consumer.old.consumer.history consumer.new.consumer.history }
    ensures ring { consumer.new.consumer.ring ≡ consumer.old.consumer.ring }
{
    growth_adds_up();
    let mut left = consumed;
    while let Some(rest) = settle_first(consumer, owner, flight, fates, ring, left) {
        left = rest;
    }
}

/// Looks at the registers once, and settles what the hardware has consumed.
pub fn poll_with<Q: CommandQueue>(
    consumer: &mut DeferringConsumer<Owner<Q>>,
    owner: &mut Owner<Q>,
    flight: &mut Flight,
    fates: &mut Fates,
    ring: &Ring,
) -> Progress
    requires ring { consumer.old.consumer.ring ≡ ring.now }
    requires fates { IsKnown (Q.queue owner.old.queue).lost (settled_raws consumer.old)
        consumer.old.consumer.ring.made_with.senders fates.old }
    requires flight { IsInFlight (Q.queue owner.old.queue) owner.old.state consumer.old flight.old }
    ensures fates { IsKnown (Q.queue owner.new.queue).lost (settled_raws consumer.new)
        consumer.new.consumer.ring.made_with.senders fates.new }
    ensures polled { ¬ IsBroken owner.old.state
        → HasPolled (Q.queue owner.old.queue) (Q.queue owner.new.queue) result }
    ensures state { ¬ IsBroken owner.old.state → owner.new.state ≡ state_after result }
    ensures broken { (word : ℕ) → owner.old.state ≡ Broken word
        → (result ≡ Progress.Broken word) × (owner.new ≡ owner.old) }
    ensures settled { HasSettledAt result (Q.queue owner.new.queue) consumer.old consumer.new }
    ensures flight { IsInFlight (Q.queue owner.new.queue) owner.new.state consumer.new flight.new }
    ensures lost { (Q.queue owner.new.queue).lost ≡ (Q.queue owner.old.queue).lost }
    ensures repeated { (Q.queue owner.new.queue).repeated ≡ (Q.queue owner.old.queue).repeated }
    ensures syncs { NoSyncIsLost (Q.queue owner.old.queue)
        → NoSyncIsLost (Q.queue owner.new.queue) }
    ensures history { Grew ConsumerOf consumer.old.consumer.trail consumer.new.consumer.trail
        consumer.old.consumer.history consumer.new.consumer.history }
    ensures ring { consumer.new.consumer.ring ≡ consumer.old.consumer.ring }
{
    growth_adds_up();
    if let QueueState::Broken(word) = owner.state() {
        return Progress::Broken(word);
    }
    match owner.poll() {
        Progress::Consumed(consumed) => {
            settle_all(consumer, owner, flight, fates, ring, consumed);
            Progress::Consumed(consumed)
        }
        Progress::Stopped { consumed, error } => {
            settle_all(consumer, owner, flight, fates, ring, consumed);
            Progress::Stopped { consumed, error }
        }
        Progress::Broken(word) => Progress::Broken(word),
    }
}
