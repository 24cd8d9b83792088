//! Whether open reservations hold slots and positions.
ghost use Rattle.std.specs.Prelude.{◌≡◌, ◌+◌, ◌<◌, ◌≤◌, ◌^◌, ℕ, length};
ghost use Rattle.qindex.specs.Positions.{size, place};
ghost use Rattle.ringcore.specs.machine.Open.{all_below, is_held, slot_is_held};
ghost use Rattle.ringcore.specs.machine.Core.{WhereAllKnow};

use crate::machine::SenderView;
use qindex::Geometry;

/// Whether an open reservation of any sender holds a slot.
pub(crate) fn slot_is_held(views: &[SenderView], geometry: Geometry, slot: u32) -> bool
    requires { slot < size geometry }
    ensures { WhereAllKnow views.now geometry (λ ring run. result ≡ slot_is_held ring run slot) }
{
    for sender in 0..views.len() {
        if views[sender].offset_of(geometry, slot).is_some() {
            return true;
        }
    }
    false
}

/// Whether an open reservation of any sender holds a position.
pub(crate) fn is_held(views: &[SenderView], position: u64) -> bool
    ensures { (geometry : ℕ) → WhereAllKnow views.now geometry (λ ring run. result ≡ is_held ring run position) }
{
    for sender in 0..views.len() {
        if views[sender].holds(position) {
            return true;
        }
    }
    false
}

/// Whether each of `count` slots in a row, from this one on, is held.
pub(crate) fn slots_are_held(
    views: &[SenderView],
    geometry: Geometry,
    slot: u32,
    count: u32,
) -> bool
    requires slot { slot < size geometry }
    requires few { count ≤ 64 }
    ensures { WhereAllKnow views.now geometry (λ ring run. result ≡ all_below count (λ k. slot_is_held ring run (place geometry (slot + k)))) }
{
    for ahead in 0..count {
        if !slot_is_held(views, geometry, (slot + ahead) % geometry.size()) {
            return false;
        }
    }
    true
}

/// Whether each of `count` positions in a row, from this one on, is held.
pub(crate) fn positions_are_held(views: &[SenderView], position: u64, count: u32) -> bool
    requires { position + count < 2 ^ 64 }
    ensures { (geometry : ℕ) → WhereAllKnow views.now geometry (λ ring run. result ≡ all_below count (λ k. is_held ring run (position + k))) }
{
    for ahead in 0..count {
        if !is_held(views, position + u64::from(ahead)) {
            return false;
        }
    }
    true
}
