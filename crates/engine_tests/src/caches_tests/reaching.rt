//! Invalidations by range, each with a block that it reaches and one that it just misses.
use crate::caches_tests::calls::{caches_of, expect_answers, lists};
use crate::caches_tests::parting::expect_parted;

#[test]
fn two_pages_from_page_8(rt: HostRuntime) {
    expect_parted(
        &rt,
        "0x2000100001012 0x8400 TLBI_NH_VA vmid=1 asid=2 leaf=0 addr=0x8000 tg=1 num=1 scale=0: s1 1 2 9 0 | s1 1 2 10 0\n\
         0x2000100001012 0x8400 TLBI_NH_VA vmid=1 asid=2 leaf=0 addr=0x8000 tg=1 num=1 scale=0: s1 1 g 9 0 | s1 1 3 9 0\n\
         0x100001013 0x8400 TLBI_NH_VAA vmid=1 leaf=0 addr=0x8000 tg=1 num=1 scale=0: s1 1 3 9 0 | s1 1 3 10 1\n\
         0x100001013 0x8400 TLBI_NH_VAA vmid=1 leaf=0 addr=0x8000 tg=1 num=1 scale=0: s1 1 2 9 0 | s1 2 2 9 0\n\
         0x2000000001022 0x8400 TLBI_EL2_VA asid=2 leaf=0 addr=0x8000 tg=1 num=1 scale=0: el2 2 9 0 | el2 3 9 0\n\
         0x2000000001022 0x8400 TLBI_EL2_VA asid=2 leaf=0 addr=0x8000 tg=1 num=1 scale=0: el2 g 9 0 | el2 2 10 0\n\
         0x1023 0x8400 TLBI_EL2_VAA leaf=0 addr=0x8000 tg=1 num=1 scale=0: el2 3 9 0 | el2 3 10 0\n\
         0x10000102a 0x8400 TLBI_S2_IPA vmid=1 leaf=0 addr=0x8000 tg=1 num=1 scale=0: s2 1 9 0 | s2 1 10 1\n\
         0x10000102a 0x8400 TLBI_S2_IPA vmid=1 leaf=0 addr=0x8000 tg=1 num=1 scale=0: s2 1 0 4 | s2 0 9 0",
    );
}

// From page 9, one granule of 16 KiB; and from page 0x13, two granules of 64 KiB.
#[test]
fn a_range_begins_with_the_granule_that_holds_the_page(rt: HostRuntime) {
    expect_parted(
        &rt,
        "0x2000100000012 0x9800 TLBI_NH_VA vmid=1 asid=2 leaf=0 addr=0x9000 tg=2 num=0 scale=0: s1 1 2 8 0 | s1 1 2 7 0\n\
         0x2000100000012 0x9800 TLBI_NH_VA vmid=1 asid=2 leaf=0 addr=0x9000 tg=2 num=0 scale=0: s1 1 2 11 0 | s1 1 2 12 0\n\
         0x2000100100012 0x13c00 TLBI_NH_VA vmid=1 asid=2 leaf=0 addr=0x13000 tg=3 num=0 scale=1: s1 1 2 0 5 | s1 1 2 0 4\n\
         0x2000100100012 0x13c00 TLBI_NH_VA vmid=1 asid=2 leaf=0 addr=0x13000 tg=3 num=0 scale=1: s1 1 2 0x2f 0 | s1 1 2 0x30 4",
    );
}

// From the last page on, 32 pages; and the longest range, of 2^40 pages.
#[test]
fn a_range_ends_with_the_address_space(rt: HostRuntime) {
    expect_parted(
        &rt,
        "0x10001f02a 0xffffffffff400 TLBI_S2_IPA vmid=1 leaf=0 addr=0xffffffffff000 tg=1 num=31 scale=0: \
         s2 1 0xffffffffff 0 | s2 1 0xfffffffffe 0\n\
         0x200010001f012 0xfffffffffffff400 TLBI_NH_VA vmid=1 asid=2 leaf=0 addr=0xfffffffffffff000 tg=1 num=31 scale=0: \
         s1 1 2 0xfffffffffffff 0 | s1 1 2 0xffffffffffffe 0\n\
         0x2000101f1f012 0xc00 TLBI_NH_VA vmid=1 asid=2 leaf=0 addr=0x0 tg=3 num=31 scale=31: \
         s1 1 2 0xffffffffff 0 | s1 1 2 0x10000000000 0",
    );
}

// From page 0x10, four times four pages.
#[test]
fn of_six_entries_three_are_reached(rt: HostRuntime) {
    let mut caches = caches_of(&rt, 6);
    expect_answers(
        &rt,
        &mut caches,
        "fill s1 1 2 0x0 4 7 3 = filled\n\
         fill s1 1 2 0xf 0 7 3 = filled\n\
         fill s1 1 2 0x10 0 7 3 = filled\n\
         fill s1 1 2 0x1c 2 7 3 = filled\n\
         fill s1 1 2 0x1f 0 7 3 = filled\n\
         fill s1 1 2 0x20 0 7 3 = filled\n\
         apply 0x2000100203012 0x10400 TLBI_NH_VA vmid=1 asid=2 leaf=0 addr=0x10000 tg=1 num=3 scale=2 = 3",
    );
    let left = "s1 1 2 0x0 4 7 3\n\
                s1 1 2 0xf 0 7 3\n\
                s1 1 2 0x20 0 7 3";
    assert!(rt; lists(&caches, left));
}
