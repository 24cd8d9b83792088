//! Renews a queue.
ghost use Rattle.std.specs.Prelude.{◌≡◌, ◌↔◌, length, IfOk, IfErr, OnOk, MatchResult};
ghost use Rattle.ring.specs.Finishing.{AreAll};
ghost use Rattle.ring.specs.NewRings.{IsNewRing};
ghost use Rattle.caches.specs.Limits.{IsCapacity};
ghost use Rattle.renewal.specs.Queues.{IsWhole, HasLooked, SawWaiting};
ghost use Rattle.renewal.specs.Carried.{IsCarried};
ghost use Rattle.renewal.specs.Renewing.{HasEnded, IsUnmade};

use crate::ending::join;
use crate::fault::RenewalFault;
use crate::meeting::is_waiting;
use crate::queue::{Queue, Refused, Renewed, Sizes};
use crate::succession::successor;
use std::alloc::Global;

/// Joins a queue whose commands are all taken, and continues with a new ring of as many senders and the same
/// entries, each born 0: older than whatever comes. The old engine's stop is forgotten (this project's
/// choice).
///
/// Errors, in this order, with the queue, which goes on and whose engine has looked: Q6 if a command is
/// reserved that isn't taken; C4, N1, N2 and N3 if the sizes aren't in range; N4 or C3 if memory runs out for
/// the ring or for a list of the entries; C1 if more entries are held than the new caches may hold; C3 if
/// memory runs out for them.
pub fn renew(alloc: Global, queue: Queue, sizes: Sizes) -> Result<Renewed, Refused>
    requires senders { AreAll queue.ring queue.senders.items }
    requires ring { queue.engine.consumer.ring ≡ queue.ring }
    ensures ended { IfOk result (λ r. HasEnded queue r.old) }
    ensures taken { IfOk result (λ r. r.old.summary.taken ≡ r.old.summary.reserved) }
    ensures unused { IfOk result (λ r.
        IsNewRing sizes.log2 (length queue.senders.items) sizes.max_batches r.queue.ring
        r.queue.senders.items r.queue.engine.consumer) }
    ensures entries { IfOk result (λ r.
        IsCarried sizes.capacity queue.engine.unit r.queue.engine.unit) }
    ensures refused { IfErr result (λ e. HasLooked queue e.queue) }
    ensures waiting { IfErr result (λ e. (e.fault ≡ RenewalFault.Waiting)
        ↔ SawWaiting e.queue.engine.consumer.trail) }
    ensures sizes { OnOk result (IsCapacity sizes.capacity) }
    ensures unmade { IfErr result (λ e. ¬ (e.fault ≡ RenewalFault.Waiting)
        → IsUnmade sizes (length queue.senders.items) queue.engine.unit.caches.entries e.fault) }
    ensures whole { MatchResult result (λ r. IsWhole r.queue) (λ e. IsWhole e.queue) }
{
    let mut queue = queue;
    if is_waiting(&mut queue) {
        let fault = RenewalFault::Waiting;
        return Err(Refused { fault, queue });
    }
    let many = queue.senders.len() as u32;
    match successor(alloc, &queue.engine, many, sizes) {
        Ok(next) => {
            let old = join(queue);
            Ok(Renewed { old, queue: next })
        }
        Err(fault) => Err(Refused { fault, queue }),
    }
}
