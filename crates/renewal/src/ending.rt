//! Joins a queue in which nothing waits.
ghost use Rattle.std.specs.Prelude.{◌≡◌};
ghost use Rattle.ring.specs.Finishing.{AreAll};
ghost use Rattle.engine.specs.Ends.{IsEngineEnd};
ghost use Rattle.renewal.specs.Queues.{KnowsNoneWaits};

use crate::queue::Queue;
use engine::Finished;
use qindex::indexes_tell_the_queue;
use ringcore::{batches_law, laws, world_law};

/// Joins a queue whose engine knows all steps that were taken, and that nothing waits: all that was ever
/// reserved was taken.
pub fn join(queue: Queue) -> Finished
    requires senders { AreAll queue.ring queue.senders.items }
    requires ring { queue.engine.consumer.ring ≡ queue.ring }
    requires none { KnowsNoneWaits queue }
    ensures end { IsEngineEnd queue.ring queue.senders.items queue.engine result.summary
        result.counts result.caches.entries }
    ensures counts { result.counts ≡ queue.engine.unit.counts }
    ensures caches { result.caches ≡ queue.engine.unit.caches }
    ensures taken { result.summary.taken ≡ result.summary.reserved }
{
    world_law();
    batches_law();
    laws::consumer_trail();
    indexes_tell_the_queue();
    let Queue {
        ring,
        senders,
        engine,
    } = queue;
    engine.finish(ring, senders)
}
