//! Look-up by address, and the export that does it.
ghost use Rattle.std.specs.Prelude.{◌≡◌, ◌/◌, IfSome};
ghost use Rattle.smmuq_c.specs.Calls.{HasCalled};
ghost use Rattle.smmuq_c.specs.Entries.{entry_status, entry_words};
ghost use Rattle.smmuq_c.specs.Lists.{tag_words};
ghost use Rattle.smmuq_c.specs.Finding.{IsSpaceOf, IsSoughtBy, Finds, IsSubstreamOf};
ghost use Rattle.smmuq_c.specs.Kept.{IsKept, KeptUnlessDone};

use crate::handle::Handle;
use crate::object::Object;
use crate::status::Status;
use crate::tags::TagWords;
use crate::words::Held;
use caches::{AddressSpace, Entry};
use cmdcodec::{Asid, Page, Sid, Ssid, Vmid};

/// `space` of an endpoint's accesses without a substream.
const NO_SUBSTREAM: u32 = 0xffff_ffff;

fn substream_of(space: u32) -> Option<Option<Ssid>>
    ensures { IsSubstreamOf space result }
{
    if space == NO_SUBSTREAM {
        return Some(None);
    }
    match Ssid::new(u64::from(space)) {
        Some(ssid) => Some(Some(ssid)),
        None => None,
    }
}

fn space_of(kind: u32, owner: u32, space: u32) -> Option<AddressSpace>
    ensures { IsSpaceOf kind owner space result }
{
    match kind {
        3 => {
            let vmid = Vmid::new(u64::from(owner))?;
            let asid = Asid::new(u64::from(space))?;
            Some(AddressSpace::S1 { vmid, asid })
        }
        4 => {
            let vmid = Vmid::new(u64::from(owner))?;
            Some(AddressSpace::S2 { vmid })
        }
        5 => {
            let asid = Asid::new(u64::from(space))?;
            Some(AddressSpace::El2 { asid })
        }
        6 => {
            let sid = Sid::new(u64::from(owner))?;
            let ssid = substream_of(space)?;
            Some(AddressSpace::Atc { sid, ssid })
        }
        _ => None,
    }
}

/// What is looked up: an address, the spans to try, and the address space, as three words.
#[derive(Clone, Copy)]
struct Sought {
    kind: u32,
    owner: u32,
    space: u32,
    address: u64,
    spans: u64,
}

impl Sought {
    /// The address space, if the words say one and no span is asked for that there isn't.
    fn space(&self) -> Option<AddressSpace>
        ensures { IsSoughtBy self.now.kind self.now.owner self.now.space self.now.spans result }
    {
        if self.spans >> 53 != 0 {
            return None;
        }
        space_of(self.kind, self.owner, self.space)
    }
}

fn tell_found(found: &Option<Entry>, tag: &mut TagWords, held: &mut Held) -> Status
    ensures status { result ≡ entry_status found.now }
    ensures tag { IfSome found.now (λ entry. tag.new ≡ tag_words entry.tag) }
    ensures held { IfSome found.now (λ entry. held.new ≡ entry_words entry) }
    ensures tag_kept { IsKept result tag.old tag.new }
    ensures held_kept { IsKept result held.old held.new }
{
    match found {
        Some(entry) => {
            *tag = TagWords::of(&entry.tag);
            *held = Held::from(*entry);
            Status::Done
        }
        None => Status::NotHeld,
    }
}

/// The page that holds an address.
fn page_of(address: u64) -> Page
    ensures { result ≡ address / 4096 }
{
    Page::new(address / 4096).unwrap()
}

/// Tells the entry of a unit or an engine that holds an address, and its tag. `kind` is 3 to 6, as in a tag; `owner` is
/// the VMID, or for kind 6 the stream, and is ignored for kind 5; `space` is the ASID, or for kind 6 the substream, and
/// is ignored for kind 4. Each span whose bit is set in `spans`, 0 to 52, is tried, the greatest first, and at each the
/// entry of that space before the global one. An endpoint has no global ones: just the substream asked for is looked up,
/// or with `space` 0xffffffff what has none. `NOT_HELD` if none is held, `BAD_FIELD` if the words say no address space or
/// another bit of `spans` is set.
#[unsafe(no_mangle)]
pub extern "C" fn smmuq_find(
    handle: &mut Handle,
    kind: u32,
    owner: u32,
    space: u32,
    address: u64,
    spans: u64,
    tag: &mut TagWords,
    held: &mut Held,
) -> u32
    ensures called { HasCalled (Finds kind owner space address spans tag.new held.new) handle.old
        handle.new result }
    ensures tag { KeptUnlessDone result tag.old tag.new }
    ensures held { KeptUnlessDone result held.old held.new }
{
    let Some(object) = handle.object_mut() else {
        return Status::EmptyHandle.number();
    };
    let sought = Sought {
        kind,
        owner,
        space,
        address,
        spans,
    };
    find(object, sought, tag, held).number()
}

fn find(object: &Object, sought: Sought, tag: &mut TagWords, held: &mut Held) -> Status
    ensures called { Finds sought.kind sought.owner sought.space sought.address sought.spans tag.new
        held.new object.now object.now result }
    ensures tag { IsKept result tag.old tag.new }
    ensures held { IsKept result held.old held.new }
{
    let Some(unit) = object.unit() else {
        return Status::WrongHandle;
    };
    let Some(space) = sought.space() else {
        return Status::BadField;
    };
    let found = unit.find(&space, page_of(sought.address), sought.spans);
    tell_found(&found, tag, held)
}
