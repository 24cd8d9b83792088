//! The entries that a command covers, and the export that tells them.
ghost use Rattle.std.specs.Prelude.{◌≡◌, length, IfOk};
ghost use Rattle.std.specs.FinMap as finite;
ghost use Rattle.cmdcodec.specs.Words.{decoding};
ghost use Rattle.caches.specs.Told.{only_covered};
ghost use Rattle.smmuq_c.specs.Calls.{HasCalled, OfAnyUnit};
ghost use Rattle.smmuq_c.specs.Invalidating.{TellsCovered};
ghost use Rattle.smmuq_c.specs.Kept.{CountKept, IsCountKept, IsKept, KeptUnlessDone};
ghost use Rattle.smmuq_c.specs.Lists.{AreListedInSomeOrder, HasToldCovered};

use crate::handle::Handle;
use crate::listing::{EntryWords, give_entries};
use crate::object::Object;
use crate::status::Status;
use caches::{CacheFault, Entry, Tag};
use cmdcodec::{Command, Raw, Sid, decode};
use engine::Unit;
use std::alloc::{AllocError, Global};

/// Tells the entries of a unit or an engine that legal words cover, those that `smmuq_invalidate` would remove, in no
/// particular order, and how many they are. None is removed. If the buffer is too short, their number is told all the
/// same; C3 if memory ran out. An `ILL_` status for illegal words.
#[unsafe(no_mangle)]
pub extern "C" fn smmuq_covered(
    alloc: Global,
    handle: &mut Handle,
    lo: u64,
    hi: u64,
    buffer: &mut [EntryWords],
    count: &mut usize,
) -> u32
    ensures called { HasCalled (TellsCovered (decoding (record { lo = lo; hi = hi }))
        buffer.old buffer.new count.new) handle.old handle.new result }
    ensures buffer { KeptUnlessDone result buffer.old buffer.new }
    ensures count { CountKept result count.old count.new }
{
    let Some(object) = handle.object_mut() else {
        return Status::EmptyHandle.number();
    };
    tell(alloc, object, Raw { lo, hi }, buffer, count).number()
}

fn tell(
    alloc: Global,
    object: &Object,
    raw: Raw,
    buffer: &mut [EntryWords],
    count: &mut usize,
) -> Status
    ensures called { TellsCovered (decoding raw) buffer.old buffer.new count.new
        object.now object.now result }
    ensures buffer { IsKept result buffer.old buffer.new }
    ensures count { IsCountKept result count.old count.new }
{
    if !object.has_unit() {
        return Status::WrongHandle;
    }
    match decode(raw) {
        Ok(command) => tell_by(alloc, object, &command, buffer, count),
        Err(ill) => Status::Illegal(ill),
    }
}

fn tell_by(
    alloc: Global,
    object: &Object,
    command: &Command,
    buffer: &mut [EntryWords],
    count: &mut usize,
) -> Status
    ensures called { OfAnyUnit (HasToldCovered command.now buffer.old buffer.new count.new)
        object.now object.now result }
    ensures buffer { IsKept result buffer.old buffer.new }
    ensures count { IsCountKept result count.old count.new }
{
    match object.unit() {
        Some(unit) => tell_of(alloc, unit, command, buffer, count),
        None => Status::WrongHandle,
    }
}

fn tell_of(
    alloc: Global,
    unit: &Unit,
    command: &Command,
    buffer: &mut [EntryWords],
    count: &mut usize,
) -> Status
    ensures covered { AreListedInSomeOrder
        (finite.values (only_covered command.now unit.now.caches.entries))
        buffer.old buffer.new count.new result }
    ensures buffer { IsKept result buffer.old buffer.new }
    ensures count { IsCountKept result count.old count.new }
{
    let mut none: [Entry; 0] = [];
    let many = unit.covered(command, &mut none);
    if buffer.len() < many {
        *count = many;
        return Status::ShortBuffer;
    }
    let Ok(mut entries) = room_for(alloc, many) else {
        return Status::Cache(CacheFault::NoMemory);
    };
    unit.covered(command, entries.as_mut_slice());
    give_entries(entries.as_slice(), buffer, count)
}

/// Room for so many entries.
fn room_for(alloc: Global, many: usize) -> Result<Vec<Entry>, AllocError>
    ensures { IfOk result (λ room. length room.items ≡ many) }
{
    let blank = Entry {
        tag: Tag::Ste {
            sid: Sid::new(0).unwrap(),
        },
        value: 0,
        born: 0,
    };
    let mut room = Vec::new(alloc);
    room.resize(many, blank)?;
    Ok(room)
}
