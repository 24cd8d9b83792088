//! The exports of a handle of any kind.
ghost use Rattle.std.specs.Prelude.{◌≡◌};
ghost use Rattle.smmuq_c.specs.Calls.{Answers};
ghost use Rattle.smmuq_c.specs.Kinds.{kind_in, kind_of, is_reservation, HasFreed};

use crate::handle::{Handle, clear};
use crate::object::Object;
use crate::status::Status;
use std::alloc::Global;

/// Frees what a handle of any kind owns, and leaves it empty. An empty one stays so. `OPEN_RESERVATION` for a sender
/// that has one: then nothing is freed.
#[unsafe(no_mangle)]
pub extern "C" fn smmuq_free(alloc: Global, handle: &mut Handle) -> u32
    ensures { Answers (HasFreed handle.old.object handle.new.object) result }
{
    let Some(object) = handle.object_mut() else {
        return Status::Done.number();
    };
    if is_reservation(object) {
        return Status::OpenReservation.number();
    }
    clear(alloc, handle);
    Status::Done.number()
}

fn is_reservation(object: &Object) -> bool
    ensures { result ≡ is_reservation object.now }
{
    matches!(object, Object::Reservation(_))
}

/// Returns 0 for an empty handle, 1 for a unit, 2 for a sender, 3 for an engine, 4 for a consumer, 5 for a guest,
/// 6 for a forwarder.
#[unsafe(no_mangle)]
pub extern "C" fn smmuq_kind(handle: &mut Handle) -> u32
    ensures kind { result ≡ kind_in handle.old.object }
    ensures same { handle.new.object ≡ handle.old.object }
{
    let Some(object) = handle.object_mut() else {
        return 0;
    };
    kind_of(object)
}

fn kind_of(object: &Object) -> u32
    ensures { result ≡ kind_of object.now }
{
    match object {
        Object::Unit(_) => 1,
        Object::Sender(_) | Object::Reservation(_) => 2,
        Object::Engine(_) => 3,
        Object::Consumer(_) => 4,
        Object::Guest(_) => 5,
        Object::Forwarder(_) => 6,
    }
}
