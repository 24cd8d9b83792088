//! Words worked out by hand.
use crate::expecting::{POLICY, expect, range, smmu, smmu_without_ranges, stage1};
use cmdcodec::{Granule, Raw};
use invalidations::{Entries, Level};

/// A byte before a page, the page, and a byte behind it: three pages.
#[test]
fn bytes_on_both_sides_of_a_page(rt: HostRuntime) {
    let invalidation = range(stage1(&rt), Granule::Kib4, Entries::Any, 0x10_0fff, 0x1002);
    let wanted = [Raw {
        lo: 0x0002_0001_0000_2012,
        hi: 0x10_0400,
    }];
    expect(&rt, &invalidation, &smmu(), &POLICY, &wanted);
}

/// TG beside NUM, SCALE and TTL that are all 0 is reserved: the page by TG 0, and 32 more. Linux sends two pages and
/// 32 more, the last of them past the end.
#[test]
fn pages_of_4_kib_and_one_alone(rt: HostRuntime) {
    let invalidation = range(
        stage1(&rt),
        Granule::Kib4,
        Entries::Any,
        0x10_0000,
        0x2_1000,
    );
    let wanted = [
        Raw {
            lo: 0x0002_0001_0000_0012,
            hi: 0x10_0000,
        },
        Raw {
            lo: 0x0002_0001_0050_0012,
            hi: 0x10_1400,
        },
    ];
    expect(&rt, &invalidation, &smmu(), &POLICY, &wanted);
}

/// The last two granules of the address space.
#[test]
fn bytes_at_the_end(rt: HostRuntime) {
    let invalidation = range(
        stage1(&rt),
        Granule::Kib4,
        Entries::Any,
        0xffff_ffff_ffff_e123,
        0x1edd,
    );
    let wanted = [Raw {
        lo: 0x0002_0001_0010_0012,
        hi: 0xffff_ffff_ffff_e400,
    }];
    expect(&rt, &invalidation, &smmu(), &POLICY, &wanted);
}

/// 16 KiB granules have no leaves of level 1, so TTL 1 isn't told.
#[test]
fn a_level_without_leaves(rt: HostRuntime) {
    let entries = Entries::Leaves {
        level: Some(Level::One),
    };
    let invalidation = range(stage1(&rt), Granule::Kib16, entries, 0x4000, 0x8000);
    let wanted = [Raw {
        lo: 0x0002_0001_0010_0012,
        hi: 0x4801,
    }];
    expect(&rt, &invalidation, &smmu(), &POLICY, &wanted);
}

/// A byte of a leaf of 2 MiB is in one leaf, and none is in none.
#[test]
fn a_byte_and_no_byte(rt: HostRuntime) {
    let entries = Entries::Leaves {
        level: Some(Level::Two),
    };
    let byte = range(stage1(&rt), Granule::Kib4, entries, 0x3f_ffff, 1);
    let wanted = [Raw {
        lo: 0x0002_0001_0000_0012,
        hi: 0x20_0001,
    }];
    expect(&rt, &byte, &smmu_without_ranges(), &POLICY, &wanted);
    let none = range(stage1(&rt), Granule::Kib4, entries, 0x3f_ffff, 0);
    expect(&rt, &none, &smmu_without_ranges(), &POLICY, &[]);
}
