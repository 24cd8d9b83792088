//! The list of entries, flat, and the export that tells it.
ghost use Rattle.std.specs.Prelude.{◌≡◌, ◌*◌, ◌<◌, ◌≤◌, ◌^◌, ◌++◌, length, drop, map};
ghost use Rattle.std.specs.FinMap as finite;
ghost use Rattle.smmuq_c.specs.Batches.{IsGiven};
ghost use Rattle.smmuq_c.specs.Calls.{HasCalled};
ghost use Rattle.smmuq_c.specs.Exports.{Lists};
ghost use Rattle.smmuq_c.specs.Lists.{tag_words, listed, IsListed, with_scope, with_substream};
ghost use Rattle.smmuq_c.specs.Kept.{CountKept, IsCountKept, IsKept, KeptUnlessDone};

use crate::handle::Handle;
use crate::object::Object;
use crate::status::Status;
use crate::tags::TagWords;
use crate::words::Held;
use caches::{Entry, Scope, Tag};
use cmdcodec::{Page, Ssid};
use engine::Unit;
use std::alloc::Global;

/// An entry: its tag, and what is held under it.
#[repr(C)]
#[derive(Clone, Copy)]
pub struct EntryWords {
    pub tag: TagWords,
    pub held: Held,
}

impl TagWords {
    const NONE: TagWords = TagWords {
        kind: 0,
        sid: 0,
        has_ssid: 0,
        ssid: 0,
        vmid: 0,
        scope: 0,
        asid: 0,
        span: 0,
        address: 0,
    };

    fn with_scope(self, scope: Scope) -> TagWords
        ensures { result ≡ with_scope scope self }
    {
        match scope {
            Scope::Global => TagWords { scope: 2, ..self },
            Scope::Of(asid) => TagWords {
                scope: 1,
                asid: u32::from(asid.get()),
                ..self
            },
        }
    }

    fn with_substream(self, ssid: Option<Ssid>) -> TagWords
        ensures { result ≡ with_substream ssid self }
    {
        match ssid {
            None => self,
            Some(ssid) => TagWords {
                has_ssid: 1,
                ssid: ssid.get(),
                ..self
            },
        }
    }

    fn of_block(page: Page, span: u8) -> TagWords
        ensures { result ≡ record TagWords.NONE { address = page * 4096; span = span } }
    {
        TagWords {
            address: page.get() << 12,
            span: u32::from(span),
            ..TagWords::NONE
        }
    }

    pub(crate) fn of(tag: &Tag) -> TagWords
        ensures { result ≡ tag_words tag.now }
    {
        match *tag {
            Tag::Ste { sid } => TagWords {
                kind: 1,
                sid: sid.get(),
                ..TagWords::NONE
            },
            Tag::Cd { sid, ssid } => TagWords {
                kind: 2,
                sid: sid.get(),
                ssid: ssid.get(),
                ..TagWords::NONE
            },
            Tag::S1 {
                vmid,
                scope,
                page,
                span,
            } => TagWords {
                kind: 3,
                vmid: u32::from(vmid.get()),
                ..TagWords::of_block(page, span)
            }
            .with_scope(scope),
            Tag::S2 { vmid, page, span } => TagWords {
                kind: 4,
                vmid: u32::from(vmid.get()),
                ..TagWords::of_block(page, span)
            },
            Tag::El2 { scope, page, span } => TagWords {
                kind: 5,
                ..TagWords::of_block(page, span)
            }
            .with_scope(scope),
            Tag::Atc {
                sid,
                ssid,
                page,
                span,
            } => TagWords {
                kind: 6,
                sid: sid.get(),
                ..TagWords::of_block(page, span)
            }
            .with_substream(ssid),
        }
    }
}

impl EntryWords {
    fn of(entry: &Entry) -> EntryWords
        ensures { result ≡ listed entry.now }
    {
        EntryWords {
            tag: TagWords::of(&entry.tag),
            held: Held {
                value: entry.value,
                born: entry.born,
            },
        }
    }
}

/// Writes entries to a buffer, and their number to `count`.
pub(crate) fn give_entries(
    entries: &[Entry],
    buffer: &mut [EntryWords],
    count: &mut usize,
) -> Status
    ensures { IsGiven (map listed entries.now) buffer.old buffer.new count.new result }
{
    *count = entries.len();
    if buffer.len() < entries.len() {
        return Status::ShortBuffer;
    }
    write_entries(entries, buffer);
    Status::Done
}

fn write_entries(entries: &[Entry], buffer: &mut [EntryWords])
    requires { length entries.now ≤ length buffer.old }
    ensures { buffer.new ≡ map listed entries.now ++ drop (length entries.now) buffer.old }
{
    for (place, entry) in entries.iter().enumerate() {
        buffer[place] = EntryWords::of(entry);
    }
}

/// Tells all entries that a unit or an engine holds, in the order of their tags, and how many they are. If the buffer
/// is too short, the number of entries is told all the same; C3 if memory ran out.
#[unsafe(no_mangle)]
pub extern "C" fn smmuq_entries(
    handle: &mut Handle,
    buffer: &mut [EntryWords],
    count: &mut usize,
) -> u32
    ensures called { HasCalled (Lists buffer.old buffer.new count.new) handle.old handle.new
        result }
    ensures buffer { KeptUnlessDone result buffer.old buffer.new }
    ensures count { CountKept result count.old count.new }
{
    let Some(object) = handle.object_mut() else {
        return Status::EmptyHandle.number();
    };
    list(object, buffer, count).number()
}

fn list(object: &Object, buffer: &mut [EntryWords], count: &mut usize) -> Status
    ensures called { Lists buffer.old buffer.new count.new object.now object.now result }
    ensures buffer { IsKept result buffer.old buffer.new }
    ensures count { IsCountKept result count.old count.new }
{
    let Some(unit) = object.unit() else {
        return Status::WrongHandle;
    };
    list_of(unit, buffer, count)
}

fn list_of(unit: &Unit, buffer: &mut [EntryWords], count: &mut usize) -> Status
    ensures listed { IsListed (finite.values unit.now.caches.entries) buffer.old buffer.new
        count.new result }
    ensures buffer { IsKept result buffer.old buffer.new }
    ensures count { IsCountKept result count.old count.new }
{
    match unit.entries() {
        Ok(list) => give_entries(list.as_slice(), buffer, count),
        Err(fault) => Status::Cache(fault),
    }
}
