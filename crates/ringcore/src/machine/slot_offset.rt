//! Where a slot is among positions in a row.
ghost use Rattle.std.specs.Prelude.{◌≡◌, ◌+◌, ◌==◌, ◌<◌, IfSome};
ghost use Rattle.qindex.specs.Positions.{size, place};
ghost use Rattle.ringcore.specs.machine.Open.{first_below};

use qindex::Geometry;

/// Returns the offset from `position` of the first of `many` positions in a row that is in the slot, or
/// `None` if none is.
pub(crate) fn offset_of_slot(geometry: Geometry, position: u64, many: u32, slot: u32) -> Option<u32>
    requires { slot < size geometry }
    ensures inside { IfSome result (λ offset. offset < many) }
    ensures value { result ≡ first_below many (λ k. place geometry (position + k) == slot) }
{
    let size = u64::from(geometry.size());
    let ahead = (u64::from(slot) + size - position % size) % size;
    if ahead < u64::from(many) {
        Some(ahead as u32)
    } else {
        None
    }
}
