//! What the units hold, and the commands that remove it.
ghost use Rattle.std.specs.Prelude.{◌≡◌, ◌<◌, ◌≤◌, ◌^◌, IfSome};
ghost use Rattle.engine.specs.Stops.{unstopped};

use caches::{Caches, Scope, Tag};
use cmdcodec::{Asid, Page, Raw, Vmid};
use engine::{Unit, Verdict};
use ringcore::MOST_RESERVED;
use std::alloc::Global;

/// How many entries were removed and filled in a unit in long use, those at the first places.
pub(crate) const USED: u16 = 40_000;

/// A place whose entry is never filled.
pub(crate) const NEVER_HELD: u16 = 65_000;

/// TLBI_NH_VA.
const TLBI_NH_VA: u64 = 0x12;

/// Four machines with four address spaces each.
fn machine(place: u16) -> u16 {
    1 + place % 4
}

fn space(place: u16) -> u16 {
    1 + place / 4 % 4
}

/// The pages of an address space are 4 MB apart.
fn page(place: u16) -> u64
    ensures { result < 2 ^ 52 }
{
    u64::from(place / 16) * 0x400
}

/// Every eighth is a block of 2 MB, the others are pages.
fn span(place: u16) -> u8 {
    if place / 16 % 8 == 7 { 9 } else { 0 }
}

/// Returns the tag of the entry at a place.
pub(crate) fn tag(place: u16) -> Tag {
    Tag::S1 {
        vmid: Vmid::new(u64::from(machine(place))).unwrap(),
        scope: Scope::Of(Asid::new(u64::from(space(place))).unwrap()),
        page: Page::new(page(place)).unwrap(),
        span: span(place),
    }
}

/// Returns the words of the TLBI_NH_VA that covers this entry and no other.
pub(crate) fn invalidation(place: u16) -> Raw {
    let machine = u64::from(machine(place));
    let space = u64::from(space(place));
    Raw {
        lo: space << 48 | machine << 32 | TLBI_NH_VA,
        hi: page(place) << 12,
    }
}

/// Returns a full unit of `count` entries, or None if memory ran out.
pub(crate) fn full_unit(alloc: Global, count: u16) -> Option<Unit>
    ensures { IfSome result (λ unit. unit.stop ≡ unstopped) }
{
    let mut unit = Unit::new(Caches::new(alloc, u32::from(count)).ok()?);
    for place in 0..count {
        if unit.fill(tag(place), 0).is_err() {
            return None;
        }
    }
    Some(unit)
}

/// Removes the entry at a place by a command, and fills the one at another; None if that fails.
fn move_on(unit: &mut Unit, place: u16, next: u16) -> Option<()>
    requires { unit.old.stop ≡ unstopped }
    ensures { IfSome result (λ _. unit.new.stop ≡ unstopped) }
{
    if unit.counts().taken() >= MOST_RESERVED {
        return None;
    }
    let Verdict::Applied {
        command: _,
        removed: 1,
    } = unit.judge(invalidation(place))
    else {
        return None;
    };
    if unit.fill(tag(next), 0).is_err() {
        return None;
    }
    Some(())
}

/// Returns a full unit of `count` entries that was used for long: those at the places from `USED` on, each filled once the
/// entry `count` places before it was removed.
pub(crate) fn used_unit(alloc: Global, count: u16) -> Option<Unit>
    requires { count ≤ 20000 }
    ensures { IfSome result (λ unit. unit.stop ≡ unstopped) }
{
    let mut unit = full_unit(alloc, count)?;
    for place in 0..USED {
        move_on(&mut unit, place, place + count)?;
    }
    Some(unit)
}
