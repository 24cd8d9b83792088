//! Words of commands, from the chapter on commands, and queues for them.
ghost use Rattle.std.specs.Prelude.{◌≡◌, []};

use caches::Caches;
use cmdcodec::Raw;
use hardware_queue::Owner;
use qindex::Geometry;
use std::process::Abort;
use unit_queue::UnitQueue;

/// CMD_CFGI_STE of stream 5 with Leaf 1.
pub const CFGI_STE: Raw = Raw {
    lo: 0x0000_0005_0000_0003,
    hi: 1,
};

/// No command: no opcode is 0xff.
pub const ILLEGAL: Raw = Raw { lo: 0xff, hi: 0 };

/// CMD_CFGI_CD_ALL of stream 5, legal words that the unit here calls illegal.
pub const UNSUPPORTED: Raw = Raw {
    lo: 0x0000_0005_0000_0006,
    hi: 0,
};

/// The owner of a queue of `2^log2` slots, behind which a unit stands.
pub fn owner<R: AllocGlobal + Abort>(rt: &R, log2: u32) -> Owner<UnitQueue>
    ensures shown { result.queue.queue.shown ≡ [] }
    ensures consumed { result.queue.queue.consumed ≡ 0 }
    ensures lost { result.queue.queue.lost ≡ [] }
{
    let caches = Caches::new(rt.alloc(), 8).expect(rt, "1 to 65,536");
    let geometry = Geometry::new(log2).expect(rt, "1 to 19");
    let mut queue = UnitQueue::new(rt.alloc(), geometry, caches).expect(rt, "memory");
    queue.set_unsupported(UNSUPPORTED);
    Owner::new(queue, geometry)
}
