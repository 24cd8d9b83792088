//! Each command with a tag that it covers and one that it just misses.
use crate::caches_tests::parting::expect_parted;

#[test]
fn configuration(rt: HostRuntime) {
    expect_parted(
        &rt,
        "0x500000003 0x1 CFGI_STE sid=5 leaf=1: ste 5 | ste 6\n\
         0x500000003 0x1 CFGI_STE sid=5 leaf=1: cd 5 1 | cd 4 1\n\
         0x500000004 0x0 CFGI_STE_RANGE sid=5 range=0: ste 4 | ste 6\n\
         0x500000004 0x0 CFGI_STE_RANGE sid=5 range=0: cd 5 1 | cd 3 1\n\
         0x500001005 0x1 CFGI_CD sid=5 ssid=1 leaf=1: cd 5 1 | cd 5 2\n\
         0x500001005 0x1 CFGI_CD sid=5 ssid=1 leaf=1: cd 5 1 | ste 5\n\
         0x500000006 0x0 CFGI_CD_ALL sid=5: cd 5 2 | ste 5\n\
         0x500000006 0x0 CFGI_CD_ALL sid=5: cd 5 2 | cd 6 2",
    );
}

#[test]
fn stage_1_by_machine_and_space(rt: HostRuntime) {
    expect_parted(
        &rt,
        "0x100000010 0x0 TLBI_NH_ALL vmid=1: s1 1 2 8 0 | s2 1 8 0\n\
         0x100000010 0x0 TLBI_NH_ALL vmid=1: s1 1 g 8 0 | s1 2 2 8 0\n\
         0x2000100000011 0x0 TLBI_NH_ASID vmid=1 asid=2: s1 1 2 8 0 | s1 1 g 8 0\n\
         0x2000100000011 0x0 TLBI_NH_ASID vmid=1 asid=2: s1 1 2 8 0 | s1 1 3 8 0",
    );
}

#[test]
fn stage_1_by_address(rt: HostRuntime) {
    expect_parted(
        &rt,
        "0x2000100000012 0x8001 TLBI_NH_VA vmid=1 asid=2 leaf=1 addr=0x8000: s1 1 2 8 3 | s1 1 2 9 0\n\
         0x2000100000012 0x8001 TLBI_NH_VA vmid=1 asid=2 leaf=1 addr=0x8000: s1 1 g 8 0 | s1 1 3 8 0\n\
         0x100000013 0x8001 TLBI_NH_VAA vmid=1 leaf=1 addr=0x8000: s1 1 3 0 4 | s1 1 3 0 3\n\
         0x100000013 0x8001 TLBI_NH_VAA vmid=1 leaf=1 addr=0x8000: s1 1 2 8 0 | s1 2 2 8 0",
    );
}

#[test]
fn the_hypervisor(rt: HostRuntime) {
    expect_parted(
        &rt,
        "0x20 0x0 TLBI_EL2_ALL: el2 g 8 0 | s1 0 2 8 0\n\
         0x2000000000021 0x0 TLBI_EL2_ASID asid=2: el2 2 8 0 | el2 g 8 0\n\
         0x2000000000022 0x8001 TLBI_EL2_VA asid=2 leaf=1 addr=0x8000: el2 2 8 1 | el2 2 6 1\n\
         0x2000000000022 0x8001 TLBI_EL2_VA asid=2 leaf=1 addr=0x8000: el2 g 8 0 | el2 3 8 0\n\
         0x23 0x8001 TLBI_EL2_VAA leaf=1 addr=0x8000: el2 3 8 0 | el2 3 9 0",
    );
}

#[test]
fn both_stages(rt: HostRuntime) {
    expect_parted(
        &rt,
        "0x100000028 0x0 TLBI_S12_VMALL vmid=1: s1 1 2 8 0 | s1 2 2 8 0\n\
         0x100000028 0x0 TLBI_S12_VMALL vmid=1: s2 1 8 0 | s2 0 8 0\n\
         0x10000002a 0x8001 TLBI_S2_IPA vmid=1 leaf=1 addr=0x8000: s2 1 8 2 | s2 1 4 2\n\
         0x10000002a 0x8001 TLBI_S2_IPA vmid=1 leaf=1 addr=0x8000: s2 1 8 0 | s1 1 2 8 0\n\
         0x30 0x0 TLBI_NSNH_ALL: s2 65535 8 0 | el2 2 8 0\n\
         0x30 0x0 TLBI_NSNH_ALL: s1 0 2 8 0 | atc 0 - 8 0",
    );
}

#[test]
fn endpoints(rt: HostRuntime) {
    expect_parted(
        &rt,
        "0x700009840 0x1c004 ATC_INV sid=7 ssv=1 ssid=9 global=0 size=4 addr=0x1c000: atc 7 9 0x10 0 | atc 7 9 0xf 0\n\
         0x700009840 0x1c004 ATC_INV sid=7 ssv=1 ssid=9 global=0 size=4 addr=0x1c000: atc 7 9 0x1f 0 | atc 7 9 0x20 0\n\
         0x700009840 0x1c004 ATC_INV sid=7 ssv=1 ssid=9 global=0 size=4 addr=0x1c000: atc 7 9 0 5 | atc 7 - 0x10 0\n\
         0x700009840 0x1c004 ATC_INV sid=7 ssv=1 ssid=9 global=0 size=4 addr=0x1c000: atc 7 9 0x10 1 | atc 8 9 0x10 1\n\
         0x700009840 0x1c004 ATC_INV sid=7 ssv=1 ssid=9 global=0 size=4 addr=0x1c000: atc 7 9 0x10 1 | atc 7 8 0x10 1",
    );
}
