//! What invalidations of the TLB reach. In lo VMID is 47:32, ASID 63:48, NUM 16:12 and SCALE 24:20; in hi TG 11:10.
use crate::regions_tests::fields::{asid, region, run, vmid};
use regions::{AddressSpaces, Pages, Region, Space};

#[test]
fn stage_1(rt: HostRuntime) {
    let vmid = vmid(&rt, 1);
    let stage_1 = |spaces, pages| Region::Translations {
        space: Space::Stage1 { vmid, spaces },
        pages,
    };
    let asid = asid(&rt, 2);
    // CMD_TLBI_NH_ALL, CMD_TLBI_NH_ASID, which spares global translations, CMD_TLBI_NH_VA and CMD_TLBI_NH_VAA.
    let every = stage_1(AddressSpaces::Every, Pages::Every);
    assert_eq!(rt; region(&rt, 0x1_0000_0010, 0), every);
    let of_2 = stage_1(AddressSpaces::One(asid), Pages::Every);
    assert_eq!(rt; region(&rt, 0x2_0001_0000_0011, 0), of_2);
    let page = stage_1(AddressSpaces::OneAndGlobal(asid), run(8, 9));
    assert_eq!(rt; region(&rt, 0x2_0001_0000_0012, 0x8001), page);
    let page = stage_1(AddressSpaces::Every, run(8, 9));
    assert_eq!(rt; region(&rt, 0x1_0000_0013, 0x8001), page);
}

#[test]
fn hypervisor(rt: HostRuntime) {
    let el2 = |spaces, pages| Region::Translations {
        space: Space::El2 { spaces },
        pages,
    };
    let asid = asid(&rt, 2);
    // CMD_TLBI_EL2_ALL, CMD_TLBI_EL2_ASID, CMD_TLBI_EL2_VA and CMD_TLBI_EL2_VAA.
    assert_eq!(rt;
        region(&rt, 0x20, 0),
        el2(AddressSpaces::Every, Pages::Every)
    );
    let of_2 = el2(AddressSpaces::One(asid), Pages::Every);
    assert_eq!(rt; region(&rt, 0x2_0000_0000_0021, 0), of_2);
    let page = el2(AddressSpaces::OneAndGlobal(asid), run(8, 9));
    assert_eq!(rt; region(&rt, 0x2_0000_0000_0022, 0x8001), page);
    assert_eq!(rt;
        region(&rt, 0x23, 0x8001),
        el2(AddressSpaces::Every, run(8, 9))
    );
}

#[test]
fn both_stages(rt: HostRuntime) {
    let vmid = vmid(&rt, 1);
    // CMD_TLBI_S12_VMALL, CMD_TLBI_NSNH_ALL and CMD_TLBI_S2_IPA.
    assert_eq!(rt; region(&rt, 0x1_0000_0028, 0), Region::Machine { vmid });
    assert_eq!(rt; region(&rt, 0x30, 0), Region::EveryMachine);
    let page = Region::Translations {
        space: Space::Stage2 { vmid },
        pages: run(8, 9),
    };
    assert_eq!(rt; region(&rt, 0x1_0000_002a, 0x8001), page);
}

#[test]
fn ranges(rt: HostRuntime) {
    let vmid = vmid(&rt, 1);
    let stage_2 = |pages| Region::Translations {
        space: Space::Stage2 { vmid },
        pages,
    };
    // TG 2, NUM 0, SCALE 0: the granule of 16K, four pages, that holds page 0x13.
    assert_eq!(rt;
        region(&rt, 0x1_0000_002a, 0x1_3801),
        stage_2(run(0x10, 0x14))
    );
    // TG 1, NUM 31, SCALE 31 from page 2^39 on: 2^36 pages.
    let first = 1 << 39;
    let pages = run(first, first + (1 << 36));
    assert_eq!(rt;
        region(&rt, 0x1_01f1_f02a, (first << 12) + 0x401),
        stage_2(pages)
    );
    // TG 3 of the same: 2^40 pages, cut at the end of the intermediate physical pages.
    let pages = run(first, 1 << 40);
    assert_eq!(rt;
        region(&rt, 0x1_01f1_f02a, (first << 12) + 0xc01),
        stage_2(pages)
    );
}
