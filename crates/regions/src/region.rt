//! Regions: what commands reach.
ghost use Rattle.std.specs.Prelude.{◌≡◌, ◌≤◌, ◌<◌, ◌^◌};
ghost use Rattle.caches.specs.Blocks.{IsBlock};
ghost use Rattle.regions.specs.CommandRegions.{pages_of_block, region_of, streams_of_block};
ghost use Rattle.regions.specs.Regions.{holds_tag, HoldsWhatIsCovered, IsNotEmpty};

use crate::accesses::Accesses;
use crate::blocks::aligned;
use crate::pages::Pages;
use crate::space::Space;
use crate::substreams::Substreams;
use caches::Tag;
use cmdcodec::{Command, Page, Sid, Size, StreamRange, Vmid};

/// What a command reaches of all that an SMMU and the endpoints behind it cache.
#[derive(Clone, Copy, Debug, PartialEq, Eq)]
pub enum Region {
    /// Nothing: CMD_SYNC, and the commands that are kept as words.
    Nothing,
    /// The stream table entries of the streams from `first` to `last`, and their context descriptors: CMD_CFGI_STE,
    /// CMD_CFGI_STE_RANGE.
    Streams {
        first: Sid,
        last: Sid,
    },
    /// Context descriptors of a stream: CMD_CFGI_CD, CMD_CFGI_CD_ALL.
    Descriptors {
        sid: Sid,
        substreams: Substreams,
    },
    /// Translations of one stage of a virtual machine, or of the hypervisor: CMD_TLBI_NH_.., CMD_TLBI_EL2_..,
    /// CMD_TLBI_S2_IPA.
    Translations {
        space: Space,
        pages: Pages,
    },
    /// All translations of a virtual machine, of both stages: CMD_TLBI_S12_VMALL.
    Machine {
        vmid: Vmid,
    },
    /// All translations of all virtual machines: CMD_TLBI_NSNH_ALL.
    EveryMachine,
    /// Translations that the endpoint of a stream caches: CMD_ATC_INV.
    Endpoint {
        sid: Sid,
        accesses: Accesses,
        pages: Pages,
    },
}

/// The streams of the aligned block of `2^(range+1)` streams that holds `sid`.
#[tactic(auto, using(crate::proofs::BlockLemmas::block_fits))]
fn streams_of_block(sid: Sid, range: StreamRange) -> Region
    ensures { result ≡ streams_of_block sid range }
{
    let block = aligned(u64::from(sid.get()), range.get() + 1);
    Region::Streams {
        first: Sid::new(block.first).unwrap(),
        last: Sid::new(block.end - 1).unwrap(),
    }
}

/// What an endpoint caches of the aligned block of `2^size` pages that holds `page`.
fn cached_at_endpoint(sid: Sid, accesses: Accesses, size: Size, page: Page) -> Region
    ensures value { result ≡ Region.Endpoint sid accesses (pages_of_block page size) }
    ensures in_range { page < 2 ^ 52 }
    ensures some { IsNotEmpty result }
{
    Region::Endpoint {
        sid,
        accesses,
        pages: Pages::of_block(page, size),
    }
}

/// Whether it is the tag of an entry or descriptor of a stream from `first` to `last`.
fn is_of_streams(tag: &Tag, first: Sid, last: Sid) -> bool
    ensures { result ≡ holds_tag (Region.Streams first last) tag.now }
{
    match *tag {
        Tag::Ste { sid } | Tag::Cd { sid, .. } => first.get() <= sid.get()
            && sid.get() <= last.get(),
        _ => false,
    }
}

/// Whether it is the tag of a translation that the endpoint caches for these accesses, of one of these pages.
fn is_at_endpoint(tag: &Tag, endpoint: Sid, accesses: Accesses, pages: Pages) -> bool
    requires { IsBlock tag.now }
    ensures { result ≡ holds_tag (Region.Endpoint endpoint accesses pages) tag.now }
{
    match *tag {
        Tag::Atc {
            sid,
            ssid,
            page,
            span,
        } => sid == endpoint && accesses.has(ssid) && pages.meet_block(page, span),
        _ => false,
    }
}

impl Region {
    /// Returns what `command` reaches.
    pub fn of(command: &Command) -> Region
        ensures exact { result ≡ region_of command.now }
        ensures covered { HoldsWhatIsCovered command.now result }
        ensures some { IsNotEmpty result }
    {
        if let Some(space) = Space::of(command) {
            return Region::Translations {
                space,
                pages: Pages::of(command),
            };
        }
        match *command {
            Command::CfgiSte { sid, .. } => Region::Streams {
                first: sid,
                last: sid,
            },
            Command::CfgiSteRange { sid, range } => streams_of_block(sid, range),
            Command::CfgiCd { sid, ssid, .. } => Region::Descriptors {
                sid,
                substreams: Substreams::One(ssid),
            },
            Command::CfgiCdAll { sid } => Region::Descriptors {
                sid,
                substreams: Substreams::Every,
            },
            Command::TlbiS12Vmall { vmid } => Region::Machine { vmid },
            Command::TlbiNsnhAll => Region::EveryMachine,
            Command::AtcInv {
                sid,
                ssv,
                ssid,
                global,
                size,
                page,
            } => cached_at_endpoint(sid, Accesses::of(ssv, ssid, global), size, page),
            _ => Region::Nothing,
        }
    }

    /// Whether the region has the entry with this tag, whose block has to be well formed (`Tag::is_block`).
    pub fn holds(&self, tag: &Tag) -> bool
        requires { IsBlock tag.now }
        ensures { result ≡ holds_tag self.now tag.now }
    {
        match *self {
            Region::Nothing => false,
            Region::Streams { first, last } => is_of_streams(tag, first, last),
            Region::Descriptors { sid, substreams } => match *tag {
                Tag::Cd { sid: of, ssid } => of == sid && substreams.has(ssid),
                _ => false,
            },
            Region::Translations { space, pages } => space.holds(pages, tag),
            Region::Machine { vmid } => match *tag {
                Tag::S1 { vmid: of, .. } | Tag::S2 { vmid: of, .. } => of == vmid,
                _ => false,
            },
            Region::EveryMachine => matches!(tag, Tag::S1 { .. } | Tag::S2 { .. }),
            Region::Endpoint {
                sid,
                accesses,
                pages,
            } => is_at_endpoint(tag, sid, accesses, pages),
        }
    }
}
