//! What is sent for whole spaces.
use crate::expecting::{
    PAGES, POLICY, expect, hypervisor, range, smmu, smmu_without_ranges, stage1, stage2,
    words_behind,
};
use cmdcodec::{Granule, Raw};
use invalidations::{Bytes, Entries, Invalidation, Policy, Space};
use smmu_features::Smmu;

/// 513 pages are one too many for commands one by one.
const TOO_MANY: u64 = 0x20_1000;

fn everything(space: Space) -> Invalidation {
    Invalidation {
        space,
        bytes: Bytes::Everything,
        granule: Granule::Kib4,
        entries: Entries::Any,
    }
}

#[test]
fn an_address_space_in_place_of_many_pages(rt: HostRuntime) {
    let invalidation = range(stage1(&rt), Granule::Kib4, PAGES, 0, TOO_MANY);
    let wanted = [Raw {
        lo: 0x0002_0001_0000_0011,
        hi: 0,
    }];
    expect(&rt, &invalidation, &smmu_without_ranges(), &POLICY, &wanted);
}

#[test]
fn a_virtual_machine_where_pages_may_be_global(rt: HostRuntime) {
    let policy = Policy {
        global_pages: true,
        ..POLICY
    };
    let invalidation = range(stage1(&rt), Granule::Kib4, PAGES, 0, TOO_MANY);
    let wanted = [Raw {
        lo: 0x0000_0001_0000_0010,
        hi: 0,
    }];
    expect(&rt, &invalidation, &smmu_without_ranges(), &policy, &wanted);
}

#[test]
fn the_hypervisor(rt: HostRuntime) {
    let one = [Raw {
        lo: 0x0002_0000_0000_0021,
        hi: 0,
    }];
    expect(&rt, &everything(hypervisor(&rt)), &smmu(), &POLICY, &one);
    let policy = Policy {
        global_pages: true,
        ..POLICY
    };
    let all = [Raw { lo: 0x20, hi: 0 }];
    expect(&rt, &everything(hypervisor(&rt)), &smmu(), &policy, &all);
}

/// The parent of a nested stage 1: the virtual machine's stage 1 is a list of its own.
#[test]
fn stage_1_behind_stage_2(rt: HostRuntime) {
    let invalidation = range(stage2(&rt), Granule::Kib4, PAGES, 0x8000, 0x1000);
    let alone = [Raw {
        lo: 0x0000_0001_0000_002a,
        hi: 0x8701,
    }];
    expect(&rt, &invalidation, &smmu(), &POLICY, &alone);
    let all = Raw {
        lo: 0x0000_0001_0000_0010,
        hi: 0,
    };
    assert_eq!(rt; words_behind(&invalidation, &smmu()), Some(all));
    let without = Smmu::from_registers(0x201, 0, 0, 0x70);
    assert_eq!(rt; words_behind(&invalidation, &without), None);
    let other = everything(stage1(&rt));
    assert_eq!(rt; words_behind(&other, &smmu()), None);
}

#[test]
fn both_stages_of_a_virtual_machine(rt: HostRuntime) {
    let all = [Raw {
        lo: 0x0000_0001_0000_0028,
        hi: 0,
    }];
    expect(&rt, &everything(stage2(&rt)), &smmu(), &POLICY, &all);
}
