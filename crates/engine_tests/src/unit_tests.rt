//! A unit without a ring.
use crate::commands::{ILLEGAL, LEGAL};
use caches::{Caches, Entry, Kind, Tag};
use cmdcodec::{Ill, Sid, Ssid};
use engine::{Remedy, Unit, Verdict};
use std::process::Abort;

/// An entry of this tag, value and birth.
fn entry(tag: &Tag, value: u64, born: u64) -> Entry {
    Entry {
        tag: *tag,
        value,
        born,
    }
}

#[test]
fn a_unit_alone(rt: HostRuntime) {
    let sid = Sid::new(5).expect(&rt, "a stream");
    let tag = Tag::Ste { sid };
    let mut unit = Unit::new(Caches::new(rt.alloc(), 1).expect(&rt, "room for one"));
    assert!(rt; unit.fill(tag, 7).is_ok());
    assert_eq!(rt; unit.lookup(&tag), Some(entry(&tag, 7, 0)));
    let applied = unit.judge(LEGAL);
    assert!(rt; matches!(applied, Verdict::Applied { removed: 1, .. }));
    assert_eq!(rt; unit.judge(ILLEGAL), Verdict::Stopped(Ill::UnknownOpcode));
    assert_eq!(rt; (unit.stopped(), unit.error()), (true, (1, 1, 0)));
    assert!(rt; unit.fill(tag, 8).is_ok());
    assert_eq!(rt; unit.acknowledge(1, Remedy::Replace), Ok(()));
    assert_eq!(rt; unit.error(), (0, 1, 1));
    assert_eq!(rt; unit.evict(&tag), Some(entry(&tag, 8, 1)));
    assert!(rt; unit.fill(tag, 9).is_ok());
    assert_eq!(rt;
        (unit.evict_all(&Kind::Cd), unit.evict_all(&Kind::Ste)),
        (0, 1)
    );
    let counts = unit.counts();
    assert_eq!(rt;
        (
            counts.taken(),
            counts.applied(),
            counts.replaced(),
            counts.syncs(),
            counts.removed()
        ),
        (1, 1, 0, 0, 1)
    );
    assert_eq!(rt; unit.into_caches().len(), 0);
}

/// Expects a unit to hold these entries, in order.
fn expect_entries(rt: &impl Abort, unit: &Unit, wanted: &[Entry]) {
    let entries = unit.entries().expect(rt, "memory");
    assert_eq!(rt; entries.as_slice(), wanted);
}

#[test]
fn old_entries_of_a_unit_are_evicted(rt: HostRuntime) {
    let sid = Sid::new(6).expect(&rt, "a stream");
    let ssid = Ssid::new(3).expect(&rt, "a substream");
    let (stream, context) = (Tag::Ste { sid }, Tag::Cd { sid, ssid });
    let mut unit = Unit::new(Caches::new(rt.alloc(), 2).expect(&rt, "room for two"));
    assert!(rt; unit.fill(context, 8).is_ok());
    let applied = unit.judge(LEGAL);
    assert!(rt; matches!(applied, Verdict::Applied { removed: 0, .. }));
    assert!(rt; unit.fill(stream, 7).is_ok());
    // What was born at the bound stays.
    assert_eq!(rt; (unit.evict_older(0), unit.evict_older(1)), (0, 1));
    expect_entries(&rt, &unit, &[entry(&stream, 7, 1)]);
}

#[test]
fn entries_of_an_empty_unit_and_while_stopped(rt: HostRuntime) {
    let sid = Sid::new(5).expect(&rt, "a stream");
    let ssid = Ssid::new(3).expect(&rt, "a substream");
    let (stream, context) = (Tag::Ste { sid }, Tag::Cd { sid, ssid });
    let mut unit = Unit::new(Caches::new(rt.alloc(), 2).expect(&rt, "room for two"));
    expect_entries(&rt, &unit, &[]);
    assert!(rt; unit.fill(context, 8).is_ok());
    assert_eq!(rt; unit.judge(ILLEGAL), Verdict::Stopped(Ill::UnknownOpcode));
    let held = [entry(&context, 8, 0)];
    expect_entries(&rt, &unit, &held);
    assert!(rt; unit.fill(stream, 7).is_ok());
    let held = [entry(&stream, 7, 0), entry(&context, 8, 0)];
    expect_entries(&rt, &unit, &held);
    assert_eq!(rt; unit.acknowledge(1, Remedy::Replace), Ok(()));
    assert_eq!(rt; unit.judge(ILLEGAL), Verdict::Replaced(Ill::UnknownOpcode));
    expect_entries(&rt, &unit, &held);
}
