//! A new queue with the entries of an old engine.
ghost use Rattle.std.specs.Prelude.{◌≡◌, [], IfOk, IfErr, OnOk};
ghost use Rattle.caches.specs.Limits.{IsCapacity};
ghost use Rattle.caches.specs.Held.{held};
ghost use Rattle.ring.specs.NewRings.{IsNewRing};
ghost use Rattle.engine.specs.Units.{new_unit};
ghost use Rattle.renewal.specs.Queues.{IsWhole};
ghost use Rattle.renewal.specs.Carried.{IsCarried, IsUncarried};
ghost use Rattle.renewal.specs.Renewing.{IsUnmade};

use crate::fault::RenewalFault;
use crate::queue::{Queue, Sizes};
use caches::{CacheFault, Caches};
use engine::Engine;
use ring::Ring;
use std::alloc::Global;

/// Makes a new queue of these sizes, with `senders` senders and the entries of this engine, each born 0. The
/// engine stays as it is.
///
/// Errors, in this order: C4, N1, N2 and N3 if the numbers aren't in range; N4 or C3 if memory runs out for
/// the ring or for a list of the entries; C1 if more entries are held than the new caches may hold; C3 if
/// memory runs out for them.
pub fn successor(
    alloc: Global,
    old: &Engine,
    senders: u32,
    sizes: Sizes,
) -> Result<Queue, RenewalFault>
    ensures unused { IfOk result (λ q.
        IsNewRing sizes.log2 senders sizes.max_batches q.ring q.senders.items q.engine.consumer) }
    ensures entries { IfOk result (λ q. IsCarried sizes.capacity old.now.unit q.engine.unit) }
    ensures sizes { OnOk result (IsCapacity sizes.capacity) }
    ensures unmade { IfErr result (λ fault.
        IsUnmade sizes senders old.now.unit.caches.entries fault) }
    ensures whole { IfOk result IsWhole }
{
    let caches = match Caches::new(alloc, sizes.capacity) {
        Ok(caches) => caches,
        Err(fault) => return Err(RenewalFault::Caches(fault)),
    };
    let (ring, all, consumer) = match Ring::new(alloc, sizes.log2, senders, sizes.max_batches) {
        Ok(parts) => parts,
        Err(fault) => return Err(RenewalFault::Ring(fault)),
    };
    let mut engine = Engine::new(consumer, caches);
    match carry(old, &mut engine, sizes.capacity) {
        Ok(()) => Ok(Queue {
            ring,
            senders: all,
            engine,
        }),
        Err(fault) => Err(RenewalFault::Caches(fault)),
    }
}

/// Puts the entries of one engine, each born 0, into another that has taken nothing, holds nothing yet, and
/// may hold `capacity` entries.
fn carry(old: &Engine, new: &mut Engine, capacity: u32) -> Result<(), CacheFault>
    requires { new.old.unit ≡ new_unit (record { capacity = capacity; entries = held [] }) }
    ensures carried { OnOk result (IsCarried capacity old.now.unit new.new.unit) }
    ensures uncarried { IfErr result (λ fault.
        IsUncarried capacity old.now.unit.caches.entries fault) }
    ensures consumer { new.new.consumer ≡ new.old.consumer }
{
    let list = match old.entries() {
        Ok(list) => list,
        Err(fault) => return Err(fault),
    };
    if list.len() > capacity as usize {
        return Err(CacheFault::Full);
    }
    for entry in &list {
        match new.fill(entry.tag, entry.value) {
            Ok(_) => {}
            Err(fault) => return Err(fault),
        }
    }
    Ok(())
}
