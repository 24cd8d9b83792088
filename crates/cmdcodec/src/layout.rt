//! The fields that several commands share, each always at the same bits.
ghost use Rattle.std.specs.Prelude.{◌≡◌, ◌==◌};
ghost use Rattle.cmdcodec.specs.Fields.{field};
ghost use Rattle.cmdcodec.specs.Words.{reach_in};

use crate::bits::field;
use crate::fields::{Asid, Page, RangeCount, RangeScale, Sid, Ssid, Vmid};
use crate::raw::Raw;
use crate::reach::{Granule, Reach};

impl Raw {
    pub(crate) fn sid(self) -> Sid
        ensures { result ≡ field self.lo 63 32 }
    {
        Sid::new(field(self.lo, 63, 32)).unwrap()
    }

    pub(crate) fn ssid(self) -> Ssid
        ensures { result ≡ field self.lo 31 12 }
    {
        Ssid::new(field(self.lo, 31, 12)).unwrap()
    }

    pub(crate) fn vmid(self) -> Vmid
        ensures { result ≡ field self.lo 47 32 }
    {
        Vmid::new(field(self.lo, 47, 32)).unwrap()
    }

    pub(crate) fn asid(self) -> Asid
        ensures { result ≡ field self.lo 63 48 }
    {
        Asid::new(field(self.lo, 63, 48)).unwrap()
    }

    pub(crate) fn leaf(self) -> bool
        ensures { result ≡ (field self.hi 0 0 == 1) }
    {
        field(self.hi, 0, 0) == 1
    }

    pub(crate) fn page(self) -> Page
        ensures { result ≡ field self.hi 63 12 }
    {
        Page::new(field(self.hi, 63, 12)).unwrap()
    }

    /// How far an invalidation by address reaches: just its page if `TG` is 0.
    pub(crate) fn reach(self) -> Reach
        ensures { result ≡ reach_in self }
    {
        let Some(tg) = Granule::new(field(self.hi, 11, 10)) else {
            return Reach::Page;
        };
        Reach::Range {
            tg,
            num: RangeCount::new(field(self.lo, 16, 12)).unwrap(),
            scale: RangeScale::new(field(self.lo, 24, 20)).unwrap(),
        }
    }
}
