//! The unit behind a queue.
use caches::{Caches, Tag};
use cmdcodec::Sid;
use qindex::Geometry;
use unit_queue::UnitQueue;

#[test]
fn an_entry_is_held(rt: HostRuntime) {
    let caches = Caches::new(rt.alloc(), 8).expect(&rt, "1 to 65,536");
    let geometry = Geometry::new(1).expect(&rt, "1 to 19");
    let mut queue = UnitQueue::new(rt.alloc(), geometry, caches).expect(&rt, "memory");
    let sid = Sid::new(5).expect(&rt, "32 bits");
    let tag = Tag::Ste { sid };
    assert!(rt; queue.fill(tag, 70).is_ok());
    queue.no_older_entry_is_held();
    assert!(rt; queue.lookup(&tag).is_some());
}
