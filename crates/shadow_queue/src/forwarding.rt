//! A forwarder whose caller writes the queue's memory and registers.
ghost use Rattle.std.specs.Prelude.{◌≡◌, ◌≤◌, ℕ, length, map};
ghost use Rattle.ringcore.specs.declared.world.event.Who.TheVariants.{Consumer as ConsumerOf};
ghost use Rattle.ringcore.specs.world.World.{taken_as};
ghost use Rattle.ring.specs.table.Histories.{Grew};
ghost use Rattle.ring.specs.consumer.Deferring.{settled_raws};
ghost use Rattle.hardware_queue.specs.declared.state.QueueState.TheVariants.{Broken};
ghost use Rattle.hardware_queue.specs.Flights.{HasConsumedAll, IsInOrder};
ghost use Rattle.hardware_queue.specs.Steps.{HasForwarded};
ghost use Rattle.shadow_queue.specs.Placing.{IsPlaced, count_shown};

use crate::placement::Placement;
use crate::shadow_queue::ShadowQueue;
use cmdcodec::Raw;
use hardware_queue::{Forwarded, Forwarder};
use ring::Ring;

/// Does what `Forwarder::forward` does, and returns beside its answer what the caller has to write: each command, which it
/// finds at the beginning of the buffer, into its slot, and then, behind a write barrier, SMMU_CMDQ_PROD; none but after
/// `Shown`.
pub fn forward(
    forwarder: &mut Forwarder<ShadowQueue>,
    ring: &Ring,
    buffer: &mut [Raw],
) -> (Forwarded, Placement)
    requires ring { forwarder.old.consumer.consumer.ring ≡ ring.now }
    requires room { 64 ≤ length buffer.old }
    ensures forwarded { HasForwarded (λ q. q) forwarder.old forwarder.new result.0 }
    ensures placed { IsPlaced buffer.old buffer.new
        forwarder.old.owner.queue forwarder.new.owner.queue result.1 }
    ensures count { result.1.count ≡ count_shown result.0 }
    ensures broken { (word : ℕ) → forwarder.old.owner.state ≡ Broken word
        → result.0 ≡ Forwarded.Broken word }
    ensures state { forwarder.new.owner.state ≡ forwarder.old.owner.state }
    ensures settled { settled_raws forwarder.new.consumer ≡ settled_raws forwarder.old.consumer }
    ensures consumed { HasConsumedAll forwarder.new.owner.queue
        (map taken_as (settled_raws forwarder.new.consumer)) }
    ensures order { IsInOrder forwarder.new.owner.queue forwarder.new.consumer.consumer.history }
    ensures lost { forwarder.new.owner.queue.lost ≡ forwarder.old.owner.queue.lost }
    ensures repeated { forwarder.new.owner.queue.repeated ≡ forwarder.old.owner.queue.repeated }
    ensures history { Grew ConsumerOf
        forwarder.old.consumer.consumer.trail forwarder.new.consumer.consumer.trail
        forwarder.old.consumer.consumer.history forwarder.new.consumer.consumer.history }
    ensures ring { forwarder.new.consumer.consumer.ring ≡ forwarder.old.consumer.consumer.ring }
{
    forwarder.queue().lost_were_shown();
    let slot = forwarder.queue().free_slot();
    let message = forwarder.queue().next_message();
    let answer = forwarder.forward(ring);
    let count = shown_by(answer);
    forwarder.queue().copy_newest(count, buffer);
    let prod = forwarder.queue().prod();
    let placement = Placement {
        slot,
        count,
        prod,
        message,
    };
    (answer, placement)
}

/// Returns how many commands the hardware was shown by this answer.
fn shown_by(answer: Forwarded) -> u32
    ensures { result ≡ count_shown answer }
{
    match answer {
        Forwarded::Shown(count) => count,
        _ => 0,
    }
}
