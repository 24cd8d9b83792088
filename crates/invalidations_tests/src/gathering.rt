//! What is gathered.
use crate::expecting::{PAGES, stage1};
use cmdcodec::Granule;
use invalidations::{ByteRange, Bytes, Gather, InvalidationFault};
use std::process::Abort;

fn bytes(first: u64, length: u64) -> Bytes {
    Bytes::Range(ByteRange { first, length })
}

fn add<R: AllocGlobal + Abort>(rt: &R, gather: &mut Gather, first: u64, length: u64) {
    assert!(rt; gather.add(&bytes(first, length)).is_ok());
}

fn expect<R: AllocGlobal + Abort>(rt: &R, gather: &mut Gather, wanted: Option<Bytes>) {
    let taken = match gather.take() {
        Some(invalidation) => Some(invalidation.bytes),
        None => None,
    };
    assert!(rt; taken == wanted);
}

/// Three neighbours, added in any order, are one.
#[test]
fn neighbours(rt: HostRuntime) {
    let mut gather = Gather::new(stage1(&rt), Granule::Kib4, PAGES);
    add(&rt, &mut gather, 0x1000, 0x1000);
    add(&rt, &mut gather, 0x3000, 0x1000);
    add(&rt, &mut gather, 0x2000, 0x1000);
    expect(&rt, &mut gather, Some(bytes(0x1000, 0x3000)));
    expect(&rt, &mut gather, None);
}

#[test]
fn bytes_far_apart(rt: HostRuntime) {
    let mut gather = Gather::new(stage1(&rt), Granule::Kib4, PAGES);
    add(&rt, &mut gather, 0, 1);
    add(&rt, &mut gather, 2, 1);
    add(&rt, &mut gather, 7, 0);
    expect(&rt, &mut gather, Some(bytes(2, 1)));
    expect(&rt, &mut gather, Some(bytes(0, 1)));
    expect(&rt, &mut gather, None);
}

/// The seventeenth interval makes everything of them.
#[test]
fn more_than_16_intervals(rt: HostRuntime) {
    let mut gather = Gather::new(stage1(&rt), Granule::Kib4, PAGES);
    for i in 0..17_u64 {
        add(&rt, &mut gather, i << 13, 0x1000);
    }
    expect(&rt, &mut gather, Some(Bytes::Everything));
    expect(&rt, &mut gather, None);
}

#[test]
fn bytes_past_the_end(rt: HostRuntime) {
    let mut gather = Gather::new(stage1(&rt), Granule::Kib4, PAGES);
    assert!(rt; gather.add(&bytes(u64::MAX, 2)) == Err(InvalidationFault::PastEnd));
    expect(&rt, &mut gather, None);
    assert!(rt; gather.add(&Bytes::Everything).is_ok());
    expect(&rt, &mut gather, Some(Bytes::Everything));
}
