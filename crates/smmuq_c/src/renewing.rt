//! The export that renews a ring.
ghost use Rattle.std.specs.Prelude.{◌≡◌, ◌⊎◌};
ghost use Rattle.smmuq_c.specs.Calls.{HasCalled, OfEngine};
ghost use Rattle.smmuq_c.specs.Renewing.{HasRenewed};

use crate::handle::Handle;
use crate::object::Object;
use crate::status::Status;
use renewal::Sizes;
use std::alloc::Global;

/// If nothing waits in an engine's ring, makes a new one as `smmuq_ring_new` does, and fills these handles with its
/// senders. The engine goes on in it with the same entries, each older than whatever comes. Q6 if a command is reserved
/// that isn't taken; C4, N1, N2, N3, N4, C1, C3 or `NO_MEMORY` if no ring or no caches are made for it: then all
/// handles are as before.
#[unsafe(no_mangle)]
pub extern "C" fn smmuq_renew(
    alloc: Global,
    log2: u32,
    max_batches: u32,
    capacity: u32,
    senders: &mut [Handle],
    engine: &mut Handle,
) -> u32
    ensures renewed { HasCalled (OfEngine (HasRenewed
        (record { log2 = log2; max_batches = max_batches; capacity = capacity })
        senders.old senders.new)) engine.old engine.new result }
    ensures senders { (result ≡ 0) ⊎ (senders.new ≡ senders.old) }
{
    let sizes = Sizes {
        log2,
        max_batches,
        capacity,
    };
    let Some(object) = engine.object_mut() else {
        return Status::EmptyHandle.number();
    };
    renew(alloc, object, sizes, senders).number()
}

fn renew(alloc: Global, object: &mut Object, sizes: Sizes, senders: &mut [Handle]) -> Status
    ensures renewed { OfEngine (HasRenewed sizes senders.old senders.new)
        object.old object.new result }
    ensures senders { (result ≡ Status.Done) ⊎ (senders.new ≡ senders.old) }
{
    match object {
        Object::Engine(engine) => engine.renew(alloc, sizes, senders),
        Object::Unit(_)
        | Object::Sender(_)
        | Object::Reservation(_)
        | Object::Consumer(_)
        | Object::Guest(_)
        | Object::Forwarder(_) => Status::WrongHandle,
    }
}
