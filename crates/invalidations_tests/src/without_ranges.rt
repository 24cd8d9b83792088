//! Words that Linux's driver sends to an SMMU without ranges.
use crate::expecting::{BLOCKS, PAGES, POLICY, expect, range, smmu_without_ranges, stage1};
use cmdcodec::{Granule, Raw};
use invalidations::Entries;

#[test]
fn a_page_of_64_kib(rt: HostRuntime) {
    let invalidation = range(stage1(&rt), Granule::Kib64, PAGES, 0x1000_0000, 0x1_0000);
    let wanted = [Raw {
        lo: 0x0002_0001_0000_0012,
        hi: 0x1000_0001,
    }];
    expect(&rt, &invalidation, &smmu_without_ranges(), &POLICY, &wanted);
}

#[test]
fn two_pages_of_16_kib(rt: HostRuntime) {
    let invalidation = range(
        stage1(&rt),
        Granule::Kib16,
        Entries::Any,
        0x1000_0000,
        0x8000,
    );
    let wanted = [
        Raw {
            lo: 0x0002_0001_0000_0012,
            hi: 0x1000_0000,
        },
        Raw {
            lo: 0x0002_0001_0000_0012,
            hi: 0x1000_4000,
        },
    ];
    expect(&rt, &invalidation, &smmu_without_ranges(), &POLICY, &wanted);
}

#[test]
fn three_blocks_of_2_mib(rt: HostRuntime) {
    let invalidation = range(stage1(&rt), Granule::Kib4, BLOCKS, 0x1_4000_0000, 0x60_0000);
    let wanted = [
        Raw {
            lo: 0x0002_0001_0000_0012,
            hi: 0x1_4000_0001,
        },
        Raw {
            lo: 0x0002_0001_0000_0012,
            hi: 0x1_4020_0001,
        },
        Raw {
            lo: 0x0002_0001_0000_0012,
            hi: 0x1_4040_0001,
        },
    ];
    expect(&rt, &invalidation, &smmu_without_ranges(), &POLICY, &wanted);
}
