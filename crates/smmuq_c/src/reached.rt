//! What a command reaches, flat, and the export that tells it.
ghost use Rattle.std.specs.Prelude.{◌≡◌};
ghost use Rattle.cmdcodec.specs.Words.{decoding};
ghost use Rattle.regions.specs.Regions.{HasPages, IsNotEmpty};
ghost use Rattle.smmuq_c.specs.Statuses.{number_of};
ghost use Rattle.smmuq_c.specs.Commands.{decode_status};
ghost use Rattle.smmuq_c.specs.RegionWords.{region_words, space_words, with_pages, with_spaces};
ghost use Rattle.smmuq_c.specs.RegionWords.{with_accesses, with_substreams, HasReached};

use crate::status::Status;
use cmdcodec::{Raw, decode};
use regions::{Accesses, AddressSpaces, Pages, Region, Space, Substreams};

/// What a command reaches: 0 for what its kind doesn't have.
#[repr(C)]
#[derive(Clone, Copy)]
pub struct RegionWords {
    /// 0 for nothing; 1 for stream table entries and context descriptors of streams, 2 for context
    /// descriptors of a stream; 3 for stage 1, 4 for stage 2, 5 for the hypervisor; 6 for both
    /// stages of a virtual machine, 7 of all; 8 for an endpoint.
    pub kind: u32,
    pub sid: u32,
    /// Of streams.
    pub last_sid: u32,
    /// Which substreams: 0 for all, 1 for any, but not accesses without one, 2 for `ssid`.
    pub substreams: u32,
    pub ssid: u32,
    pub vmid: u32,
    /// Which address spaces: 0 for all, 1 for `asid` and the global translations, 2 for `asid`.
    pub asids: u32,
    pub asid: u32,
    /// The first and the last byte, from kind 3 on.
    pub first: u64,
    pub last: u64,
}

impl RegionWords {
    const NONE: RegionWords = RegionWords {
        kind: 0,
        sid: 0,
        last_sid: 0,
        substreams: 0,
        ssid: 0,
        vmid: 0,
        asids: 0,
        asid: 0,
        first: 0,
        last: 0,
    };

    fn with_pages(self, pages: Pages) -> RegionWords
        requires { HasPages pages }
        ensures { result ≡ with_pages pages self }
    {
        match pages {
            Pages::Every => RegionWords {
                first: 0,
                last: u64::MAX,
                ..self
            },
            Pages::Run(run) => RegionWords {
                first: run.first * 4096,
                last: (run.end - 1) * 4096 + 4095,
                ..self
            },
        }
    }

    fn with_spaces(self, spaces: AddressSpaces) -> RegionWords
        ensures { result ≡ with_spaces spaces self }
    {
        match spaces {
            AddressSpaces::Every => self,
            AddressSpaces::One(asid) => RegionWords {
                asids: 2,
                asid: u32::from(asid.get()),
                ..self
            },
            AddressSpaces::OneAndGlobal(asid) => RegionWords {
                asids: 1,
                asid: u32::from(asid.get()),
                ..self
            },
        }
    }

    fn with_substreams(self, substreams: Substreams) -> RegionWords
        ensures { result ≡ with_substreams substreams self }
    {
        match substreams {
            Substreams::Every => self,
            Substreams::One(ssid) => RegionWords {
                substreams: 2,
                ssid: ssid.get(),
                ..self
            },
        }
    }

    fn with_accesses(self, accesses: Accesses) -> RegionWords
        ensures { result ≡ with_accesses accesses self }
    {
        match accesses {
            Accesses::Every => self,
            Accesses::OfSubstream(ssid) => RegionWords {
                substreams: 2,
                ssid: ssid.get(),
                ..self
            },
            Accesses::WithSubstream => RegionWords {
                substreams: 1,
                ..self
            },
        }
    }

    fn of_space(space: Space) -> RegionWords
        ensures { result ≡ space_words space }
    {
        match space {
            Space::Stage1 { vmid, spaces } => RegionWords {
                kind: 3,
                vmid: u32::from(vmid.get()),
                ..RegionWords::NONE
            }
            .with_spaces(spaces),
            Space::Stage2 { vmid } => RegionWords {
                kind: 4,
                vmid: u32::from(vmid.get()),
                ..RegionWords::NONE
            },
            Space::El2 { spaces } => RegionWords {
                kind: 5,
                ..RegionWords::NONE
            }
            .with_spaces(spaces),
        }
    }

    fn of(region: Region) -> RegionWords
        requires { IsNotEmpty region }
        ensures { result ≡ region_words region }
    {
        match region {
            Region::Nothing => RegionWords::NONE,
            Region::Streams { first, last } => RegionWords {
                kind: 1,
                sid: first.get(),
                last_sid: last.get(),
                ..RegionWords::NONE
            },
            Region::Descriptors { sid, substreams } => RegionWords {
                kind: 2,
                sid: sid.get(),
                ..RegionWords::NONE
            }
            .with_substreams(substreams),
            Region::Translations { space, pages } => RegionWords::of_space(space).with_pages(pages),
            Region::Endpoint {
                sid,
                accesses,
                pages,
            } => RegionWords {
                kind: 8,
                sid: sid.get(),
                ..RegionWords::NONE
            }
            .with_accesses(accesses)
            .with_pages(pages),
            Region::Machine { vmid } => RegionWords {
                kind: 6,
                vmid: u32::from(vmid.get()),
                ..RegionWords::NONE
            }
            .with_pages(Pages::Every),
            Region::EveryMachine => RegionWords {
                kind: 7,
                ..RegionWords::NONE
            }
            .with_pages(Pages::Every),
        }
    }
}

/// Tells what legal words reach. An `ILL_` status for illegal words: then nothing is told.
#[unsafe(no_mangle)]
pub extern "C" fn smmuq_region(lo: u64, hi: u64, region: &mut RegionWords) -> u32
    ensures status { result ≡ number_of (decode_status (decoding (record { lo = lo; hi = hi }))) }
    ensures region { HasReached (decoding (record { lo = lo; hi = hi })) region.old region.new }
{
    match decode(Raw { lo, hi }) {
        Ok(command) => {
            *region = RegionWords::of(Region::of(&command));
            Status::Done.number()
        }
        Err(ill) => Status::Illegal(ill).number(),
    }
}
