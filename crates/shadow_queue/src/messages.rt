//! Completion by the MSI of a CMD_SYNC, in place of the registers.
ghost use Rattle.std.specs.Prelude.{◌≡◌, map, IfSome, IfNone};
ghost use Rattle.ringcore.specs.declared.world.event.Who.TheVariants.{Consumer as ConsumerOf};
ghost use Rattle.ringcore.specs.world.World.{taken_as};
ghost use Rattle.ring.specs.table.Histories.{Grew};
ghost use Rattle.ring.specs.consumer.Deferring.{settled_raws};
ghost use Rattle.hardware_queue.specs.declared.state.QueueState.TheVariants.{Running};
ghost use Rattle.hardware_queue.specs.Flights.{HasConsumedAll, IsInOrder};
ghost use Rattle.hardware_queue.specs.Steps.{HasSettledAll};
ghost use Rattle.shadow_queue.specs.Messages.{HasHeard, IsUnheard};

use crate::shadow_queue::ShadowQueue;
use hardware_queue::{Forwarder, Progress, SuppliedQueue};
use ring::Ring;

/// Settles what the hardware has consumed, as `Forwarder::poll_words` does, by `message`, the data of an MSI that
/// completed a CMD_SYNC: what `Placement` says, or `ShadowQueue::first_message` behind a restart. Returns how many more
/// were consumed.
///
/// Returns `None`, and changes nothing, if it tells nothing: it is behind what is known to be consumed, as an MSI of
/// before a restart is, or ahead of what was shown; or the last look found a stop, or a broken queue.
pub fn poll_msi(forwarder: &mut Forwarder<ShadowQueue>, ring: &Ring, message: u32) -> Option<u32>
    requires { forwarder.old.consumer.consumer.ring ≡ ring.now }
    ensures heard { IfSome result
        (HasHeard message forwarder.old.owner.queue forwarder.new.owner.queue) }
    ensures was_running { IfSome result (λ count. forwarder.old.owner.state ≡ Running) }
    ensures running { IfSome result (λ count. forwarder.new.owner.state ≡ Running) }
    ensures settled { IfSome result (λ count. HasSettledAll forwarder.new.owner.queue
        forwarder.old.consumer forwarder.new.consumer) }
    ensures unheard { IfNone result (IsUnheard message forwarder.old.owner) }
    ensures kept { IfNone result (forwarder.new ≡ forwarder.old) }
    ensures consumed { IfSome result (λ count. HasConsumedAll forwarder.new.owner.queue
        (map taken_as (settled_raws forwarder.new.consumer))) }
    ensures order { IfSome result (λ count. IsInOrder forwarder.new.owner.queue
        forwarder.new.consumer.consumer.history) }
    ensures lost { forwarder.new.owner.queue.lost ≡ forwarder.old.owner.queue.lost }
    ensures repeated { forwarder.new.owner.queue.repeated ≡ forwarder.old.owner.queue.repeated }
    ensures history { Grew ConsumerOf
        forwarder.old.consumer.consumer.trail forwarder.new.consumer.consumer.trail
        forwarder.old.consumer.consumer.history forwarder.new.consumer.consumer.history }
    ensures ring { forwarder.new.consumer.consumer.ring ≡ forwarder.old.consumer.consumer.ring }
{
    if forwarder.stopped().is_some() {
        return None;
    }
    let words = forwarder.queue().words_told(message)?;
    if !forwarder.queue().can_have(words) {
        return None;
    }
    match forwarder.poll_words(ring, words) {
        Progress::Consumed(count) => Some(count),
        Progress::Stopped { .. } | Progress::Broken(_) => None,
    }
}
