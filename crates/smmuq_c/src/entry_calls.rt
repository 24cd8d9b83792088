//! The exports of entries, of a unit or of an engine.
ghost use Rattle.smmuq_c.specs.Calls.{HasCalled, OfAnyUnit};
ghost use Rattle.smmuq_c.specs.Entries.{HasCounted};
ghost use Rattle.smmuq_c.specs.Exports.{Fills, LooksUp, Evicts};
ghost use Rattle.smmuq_c.specs.Kept.{IsKept, KeptUnlessDone};

use crate::answers::{fill_status, tell_entry};
use crate::handle::Handle;
use crate::object::Object;
use crate::status::Status;
use crate::tags::{TagWords, tag_of};
use crate::words::Held;

/// Puts an entry, born now, into the caches of a unit or an engine. `BAD_FIELD` if the tag isn't one; C2, C1 or C3 as
/// for `Caches::fill`.
#[unsafe(no_mangle)]
pub extern "C" fn smmuq_fill(handle: &mut Handle, tag: &TagWords, value: u64) -> u32
    ensures { HasCalled (Fills tag.now value) handle.old handle.new result }
{
    let Some(object) = handle.object_mut() else {
        return Status::EmptyHandle.number();
    };
    let tag = TagWords::read(tag);
    fill(object, &tag, value).number()
}

fn fill(object: &mut Object, tag: &TagWords, value: u64) -> Status
    ensures { Fills tag.now value object.old object.new result }
{
    if !object.has_unit() {
        return Status::WrongHandle;
    }
    let Some(tag) = tag_of(tag) else {
        return Status::BadField;
    };
    match object {
        Object::Unit(unit) => fill_status(unit.fill(tag, value)),
        Object::Engine(seated) => seated.fill(tag, value),
        Object::Sender(_)
        | Object::Reservation(_)
        | Object::Consumer(_)
        | Object::Guest(_)
        | Object::Forwarder(_) => Status::WrongHandle,
    }
}

/// Tells what a unit or an engine holds under a tag. `NOT_HELD` if it holds nothing, `BAD_FIELD` if the tag isn't one.
#[unsafe(no_mangle)]
pub extern "C" fn smmuq_lookup(handle: &mut Handle, tag: &TagWords, held: &mut Held) -> u32
    ensures called { HasCalled (LooksUp tag.now held.new) handle.old handle.new result }
    ensures kept { KeptUnlessDone result held.old held.new }
{
    let Some(object) = handle.object_mut() else {
        return Status::EmptyHandle.number();
    };
    let tag = TagWords::read(tag);
    lookup(object, &tag, held).number()
}

fn lookup(object: &Object, tag: &TagWords, held: &mut Held) -> Status
    ensures called { LooksUp tag.now held.new object.now object.now result }
    ensures kept { IsKept result held.old held.new }
{
    let Some(unit) = object.unit() else {
        return Status::WrongHandle;
    };
    let Some(tag) = tag_of(tag) else {
        return Status::BadField;
    };
    tell_entry(unit.lookup(&tag), held)
}

/// Removes what a unit or an engine holds under a tag, and tells it. `NOT_HELD` if it holds nothing, `BAD_FIELD` if the
/// tag isn't one.
#[unsafe(no_mangle)]
pub extern "C" fn smmuq_evict(handle: &mut Handle, tag: &TagWords, held: &mut Held) -> u32
    ensures called { HasCalled (Evicts tag.now held.new) handle.old handle.new result }
    ensures kept { KeptUnlessDone result held.old held.new }
{
    let Some(object) = handle.object_mut() else {
        return Status::EmptyHandle.number();
    };
    let tag = TagWords::read(tag);
    evict(object, &tag, held).number()
}

fn evict(object: &mut Object, tag: &TagWords, held: &mut Held) -> Status
    ensures called { Evicts tag.now held.new object.old object.new result }
    ensures kept { IsKept result held.old held.new }
{
    if !object.has_unit() {
        return Status::WrongHandle;
    }
    let Some(tag) = tag_of(tag) else {
        return Status::BadField;
    };
    match object {
        Object::Unit(unit) => tell_entry(unit.evict(&tag), held),
        Object::Engine(seated) => seated.evict(&tag, held),
        Object::Sender(_)
        | Object::Reservation(_)
        | Object::Consumer(_)
        | Object::Guest(_)
        | Object::Forwarder(_) => Status::WrongHandle,
    }
}

/// Tells how many entries a unit or an engine holds.
#[unsafe(no_mangle)]
pub extern "C" fn smmuq_count(handle: &mut Handle, count: &mut usize) -> u32
    ensures called { HasCalled (OfAnyUnit (HasCounted count.new)) handle.old handle.new result }
    ensures kept { KeptUnlessDone result count.old count.new }
{
    let Some(object) = handle.object_mut() else {
        return Status::EmptyHandle.number();
    };
    tell_count(object, count).number()
}

fn tell_count(object: &Object, count: &mut usize) -> Status
    ensures called { OfAnyUnit (HasCounted count.new) object.now object.now result }
    ensures kept { IsKept result count.old count.new }
{
    let Some(unit) = object.unit() else {
        return Status::WrongHandle;
    };
    *count = unit.len();
    Status::Done
}
