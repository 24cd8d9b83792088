//! How far the host's TLB invalidations by address reach.
ghost use Rattle.std.specs.Prelude.{◌≡◌};
ghost use Rattle.invalidations.specs.ByAddress.{single};
ghost use Rattle.invalidations.specs.Plans.{has_granule};
ghost use Rattle.guest_commands.specs.HostCommands.{known_ttl, by_range, by_page, host_reach};

use cmdcodec::{Granule, RangeCount, RangeScale, Reach};
use range_hints::Ttl;
use smmu_features::Smmu;

fn has_granule(smmu: &Smmu, tg: Granule) -> bool
    ensures { result ≡ has_granule smmu.now tg }
{
    match tg {
        Granule::Kib4 => smmu.granules.kib4,
        Granule::Kib16 => smmu.granules.kib16,
        Granule::Kib64 => smmu.granules.kib64,
    }
}

/// The hint, or none if it is reserved beside this TG.
fn known_ttl(tg: Granule, ttl: Ttl) -> Ttl
    ensures { result ≡ known_ttl tg ttl }
{
    match (tg, ttl) {
        (Granule::Kib16, Ttl::Level1) => Ttl::AnyLevel,
        _ => ttl,
    }
}

/// One granule without a hint: its page, if that is all of it, or else two granules.
fn single(tg: Granule) -> Reach
    ensures { result ≡ single tg }
{
    let two = Reach::Range {
        tg,
        num: RangeCount::new(0).unwrap(),
        scale: RangeScale::new(1).unwrap(),
    };
    match tg {
        Granule::Kib4 => Reach::Page,
        Granule::Kib16 | Granule::Kib64 => two,
    }
}

/// A range for an SMMU that has it. NUM, SCALE and TTL that are all 0 are reserved.
fn by_range(tg: Granule, num: RangeCount, scale: RangeScale, ttl: Ttl) -> (Reach, Ttl)
    ensures { result ≡ by_range tg num scale ttl }
{
    match ttl {
        Ttl::AnyLevel if num.get() == 0 && scale.get() == 0 => (single(tg), Ttl::AnyLevel),
        _ => (Reach::Range { tg, num, scale }, ttl),
    }
}

/// A range as its page, if that is all of it.
fn by_page(tg: Granule, num: RangeCount, scale: RangeScale) -> Option<(Reach, Ttl)>
    ensures { result ≡ by_page tg num scale }
{
    match tg {
        Granule::Kib4 if num.get() == 0 && scale.get() == 0 => Some((Reach::Page, Ttl::AnyLevel)),
        _ => None,
    }
}

/// Returns how far the host's command reaches, and its hint, or `None` if it has to be for all pages.
pub(crate) fn host_reach(smmu: &Smmu, reach: Reach, ttl: Ttl) -> Option<(Reach, Ttl)>
    ensures { result ≡ host_reach smmu.now reach ttl }
{
    match reach {
        Reach::Page => Some((Reach::Page, Ttl::AnyLevel)),
        Reach::Range { tg, num, scale } => {
            if smmu.range_invalidation && has_granule(smmu, tg) {
                Some(by_range(tg, num, scale, known_ttl(tg, ttl)))
            } else {
                by_page(tg, num, scale)
            }
        }
    }
}
