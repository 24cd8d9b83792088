//! Evicting entries by their kinds, their stream, their virtual machine or their age, and the exports that do it.
ghost use Rattle.std.specs.Prelude.{◌≡◌};
ghost use Rattle.smmuq_c.specs.Calls.{HasCalled};
ghost use Rattle.smmuq_c.specs.Evicting.{IsMachineOf, EvictsPassing, EvictsKinds, EvictsStream, EvictsMachine, EvictsOlder};
ghost use Rattle.smmuq_c.specs.Kept.{IsKept, KeptUnlessDone};

use crate::handle::Handle;
use crate::object::Object;
use crate::status::Status;
use caches::{Kinds, OfMachine, OfStream, TagTest};
use cmdcodec::{Sid, Vmid};

/// Evicts all entries of a unit or an engine whose tags are of some kinds, and tells how many they were. Bit `kind - 1`
/// of `kinds` stands for each of the kinds 1 to 6: 0x3f evicts all entries, 0 none. `BAD_FIELD` if another bit is set:
/// then nothing changed. Walks that began before are refused from then on. Takes no memory for that.
#[unsafe(no_mangle)]
pub extern "C" fn smmuq_evict_all(handle: &mut Handle, kinds: u32, count: &mut usize) -> u32
    ensures called { HasCalled (EvictsKinds kinds count.new) handle.old handle.new result }
    ensures kept { KeptUnlessDone result count.old count.new }
{
    let Some(object) = handle.object_mut() else {
        return Status::EmptyHandle.number();
    };
    evict_kinds(object, kinds, count).number()
}

fn evict_kinds(object: &mut Object, kinds: u32, count: &mut usize) -> Status
    ensures called { EvictsKinds kinds count.new object.old object.new result }
    ensures kept { IsKept result count.old count.new }
{
    if !object.has_unit() {
        return Status::WrongHandle;
    }
    let Some(kinds) = Kinds::from_bits(kinds) else {
        return Status::BadField;
    };
    evict_passing(object, &kinds, count)
}

/// Evicts all that a unit or an engine holds of a stream, and tells how many entries they were: its stream table entry,
/// its context descriptors, and what its endpoint holds. Walks that began before are refused from then on. Takes no
/// memory for that.
#[unsafe(no_mangle)]
pub extern "C" fn smmuq_evict_stream(handle: &mut Handle, sid: u32, count: &mut usize) -> u32
    ensures called { HasCalled (EvictsStream sid count.new) handle.old handle.new result }
    ensures kept { KeptUnlessDone result count.old count.new }
{
    let Some(object) = handle.object_mut() else {
        return Status::EmptyHandle.number();
    };
    evict_stream(object, sid, count).number()
}

fn stream_of(sid: u32) -> OfStream
    ensures { result ≡ record { 0 = sid } }
{
    OfStream(Sid::new(u64::from(sid)).unwrap())
}

fn evict_stream(object: &mut Object, sid: u32, count: &mut usize) -> Status
    ensures called { EvictsStream sid count.new object.old object.new result }
    ensures kept { IsKept result count.old count.new }
{
    evict_passing(object, &stream_of(sid), count)
}

/// Evicts all translations of a virtual machine, of stage 1 and of stage 2, that a unit or an engine holds, and tells how
/// many they were. `BAD_FIELD` if `vmid` has more than 16 bits. Walks that began before are refused from then on. Takes no
/// memory for that.
#[unsafe(no_mangle)]
pub extern "C" fn smmuq_evict_machine(handle: &mut Handle, vmid: u32, count: &mut usize) -> u32
    ensures called { HasCalled (EvictsMachine vmid count.new) handle.old handle.new result }
    ensures kept { KeptUnlessDone result count.old count.new }
{
    let Some(object) = handle.object_mut() else {
        return Status::EmptyHandle.number();
    };
    evict_machine(object, vmid, count).number()
}

fn machine_of(vmid: u32) -> Option<OfMachine>
    ensures { IsMachineOf vmid result }
{
    match Vmid::new(u64::from(vmid)) {
        Some(vmid) => Some(OfMachine(vmid)),
        None => None,
    }
}

fn evict_machine(object: &mut Object, vmid: u32, count: &mut usize) -> Status
    ensures called { EvictsMachine vmid count.new object.old object.new result }
    ensures kept { IsKept result count.old count.new }
{
    if !object.has_unit() {
        return Status::WrongHandle;
    }
    let Some(machine) = machine_of(vmid) else {
        return Status::BadField;
    };
    evict_passing(object, &machine, count)
}

/// Evicts all entries of a unit or an engine that were filled before `born` commands were taken, and tells how many they
/// were. Walks that began before are refused from then on. Takes no memory for that.
#[unsafe(no_mangle)]
pub extern "C" fn smmuq_evict_older(handle: &mut Handle, born: u64, count: &mut usize) -> u32
    ensures called { HasCalled (EvictsOlder born count.new) handle.old handle.new result }
    ensures kept { KeptUnlessDone result count.old count.new }
{
    let Some(object) = handle.object_mut() else {
        return Status::EmptyHandle.number();
    };
    evict_older(object, born, count).number()
}

fn evict_older(object: &mut Object, born: u64, count: &mut usize) -> Status
    ensures called { EvictsOlder born count.new object.old object.new result }
    ensures kept { IsKept result count.old count.new }
{
    match object {
        Object::Unit(unit) => {
            *count = unit.evict_older(born) as usize;
            Status::Done
        }
        Object::Engine(seated) => {
            *count = seated.evict_older(born) as usize;
            Status::Done
        }
        Object::Sender(_)
        | Object::Reservation(_)
        | Object::Consumer(_)
        | Object::Guest(_)
        | Object::Forwarder(_) => Status::WrongHandle,
    }
}

/// Evicts all entries of a unit or an engine whose tags pass a test, and tells how many they were.
fn evict_passing<T: TagTest>(object: &mut Object, test: &T, count: &mut usize) -> Status
    ensures called { EvictsPassing (T.passing test.now) count.new object.old object.new result }
    ensures kept { IsKept result count.old count.new }
{
    match object {
        Object::Unit(unit) => {
            *count = unit.evict_all(test) as usize;
            Status::Done
        }
        Object::Engine(seated) => {
            *count = seated.evict_all(test) as usize;
            Status::Done
        }
        Object::Sender(_)
        | Object::Reservation(_)
        | Object::Consumer(_)
        | Object::Guest(_)
        | Object::Forwarder(_) => Status::WrongHandle,
    }
}
