//! Invalidating without a command that is taken, and the export that does it.
ghost use Rattle.std.specs.Prelude.{◌≡◌};
ghost use Rattle.cmdcodec.specs.Words.{decoding};
ghost use Rattle.caches.specs.Covers.{covers};
ghost use Rattle.smmuq_c.specs.Calls.{HasCalled};
ghost use Rattle.smmuq_c.specs.Evicting.{EvictsPassing};
ghost use Rattle.smmuq_c.specs.Invalidating.{Invalidates};
ghost use Rattle.smmuq_c.specs.Kept.{IsKept, KeptUnlessDone};

use crate::handle::Handle;
use crate::object::Object;
use crate::status::Status;
use cmdcodec::{Command, Raw, decode};

/// Removes the entries of a unit or an engine that legal words cover, without taking them, and tells how many they were.
/// An `ILL_` status for illegal words: then nothing changed. Walks that began before are refused from then on. Takes no
/// memory for that.
#[unsafe(no_mangle)]
pub extern "C" fn smmuq_invalidate(handle: &mut Handle, lo: u64, hi: u64, count: &mut usize) -> u32
    ensures called { HasCalled (Invalidates (decoding (record { lo = lo; hi = hi })) count.new)
        handle.old handle.new result }
    ensures kept { KeptUnlessDone result count.old count.new }
{
    let Some(object) = handle.object_mut() else {
        return Status::EmptyHandle.number();
    };
    invalidate(object, Raw { lo, hi }, count).number()
}

fn invalidate(object: &mut Object, raw: Raw, count: &mut usize) -> Status
    ensures called { Invalidates (decoding raw) count.new object.old object.new result }
    ensures kept { IsKept result count.old count.new }
{
    if !object.has_unit() {
        return Status::WrongHandle;
    }
    match decode(raw) {
        Ok(command) => invalidate_by(object, &command, count),
        Err(ill) => Status::Illegal(ill),
    }
}

fn invalidate_by(object: &mut Object, command: &Command, count: &mut usize) -> Status
    ensures called { EvictsPassing (covers command.now) count.new object.old object.new result }
    ensures kept { IsKept result count.old count.new }
{
    match object {
        Object::Unit(unit) => {
            *count = unit.invalidate(command) as usize;
            Status::Done
        }
        Object::Engine(seated) => {
            *count = seated.invalidate(command) as usize;
            Status::Done
        }
        Object::Sender(_)
        | Object::Reservation(_)
        | Object::Consumer(_)
        | Object::Guest(_)
        | Object::Forwarder(_) => Status::WrongHandle,
    }
}
