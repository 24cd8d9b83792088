//! Which pages an invalidation by address reaches.
ghost use Rattle.std.specs.Prelude.{◌≡◌, ◌<◌, ◌≤◌, ◌+◌, ◌*◌, ◌^◌};
ghost use Rattle.cmdcodec.specs.Spelling.{granule_named, granule_number};
ghost use Rattle.cmdcodec.specs.PageRuns.{granule_pages, run_from};

use crate::fields::{RangeCount, RangeScale};

/// `TG` of an invalidation by range: the granule size.
#[derive(Clone, Copy, Debug, PartialEq, Eq)]
pub enum Granule {
    /// 4 KiB, a page.
    Kib4,
    /// 16 KiB, 4 pages.
    Kib16,
    /// 64 KiB, 16 pages.
    Kib64,
}

/// How far an invalidation by address reaches, counted from its page.
#[derive(Clone, Copy, Debug, PartialEq, Eq)]
pub enum Reach {
    /// Just the page.
    Page,
    /// `(num + 1) * 2^scale` granules, from the one that holds the page.
    Range {
        tg: Granule,
        num: RangeCount,
        scale: RangeScale,
    },
}

/// The pages from `first` up to, but not including, `end`.
#[derive(Clone, Copy, Debug, PartialEq, Eq)]
pub struct PageRun {
    pub first: u64,
    pub end: u64,
}

impl Granule {
    /// Returns the granule with this number, 1 to 3, or `None` for any other number.
    pub fn new(value: u64) -> Option<Granule>
        ensures { result ≡ granule_named value }
    {
        match value {
            1 => Some(Granule::Kib4),
            2 => Some(Granule::Kib16),
            3 => Some(Granule::Kib64),
            _ => None,
        }
    }

    /// Returns its number, 1 to 3.
    pub fn get(self) -> u8
        ensures value { result ≡ granule_number self }
        ensures in_range { result < 4 }
    {
        match self {
            Granule::Kib4 => 1,
            Granule::Kib16 => 2,
            Granule::Kib64 => 3,
        }
    }

    /// Returns its size in pages.
    pub fn pages(self) -> u64
        ensures { result ≡ granule_pages self }
    {
        match self {
            Granule::Kib4 => 1,
            Granule::Kib16 => 4,
            Granule::Kib64 => 16,
        }
    }
}

impl Reach {
    /// Returns the pages reached from `page` in an address space of `space` pages.
    pub(crate) fn run_from(self, page: u64, space: u64) -> PageRun
        requires inside { page < space }
        requires size { space ≤ 2 ^ 52 }
        ensures { result ≡ run_from page self space }
    {
        let Reach::Range { tg, num, scale } = self else {
            return PageRun {
                first: page,
                end: page + 1,
            };
        };
        let granule = tg.pages();
        let first = page / granule * granule;
        PageRun {
            first,
            end: space.min(first + granules(num, scale) * granule),
        }
    }
}

/// Returns the number of granules in a range: `(num + 1) * 2^scale`.
#[tactic(auto, using(crate::proofs::PageRunLemmas::granules_fit))]
fn granules(num: RangeCount, scale: RangeScale) -> u64
    ensures value { result ≡ (num + 1) * 2 ^ scale }
    ensures in_range { result ≤ 2 ^ 36 }
{
    (u64::from(num.get()) + 1) << scale.get()
}
