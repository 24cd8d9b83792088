//! Look-ups by address. In a mask of spans 0x1 stands for single pages, 0x200 for blocks of 512 pages, and 0x40000 for
//! blocks of 512 times 512.
use crate::caches_tests::calls::{caches_of, expect_answers, found};
use crate::caches_tests::notation::entry;

#[test]
fn own_entries_come_before_global_ones(rt: HostRuntime) {
    expect_answers(
        &rt,
        &mut caches_of(&rt, 8),
        "fill s1 1 g 0x200 9 20 0 = filled\n\
         fill s1 1 2 0x200 9 10 0 = filled\n\
         find s1 1 2 0x3ff 0x200 = value=10 born=0\n\
         find s1 1 3 0x3ff 0x200 = value=20 born=0\n\
         find s1 2 2 0x3ff 0x200 = none\n\
         find s1 1 2 0x400 0x200 = none\n\
         find s2 1 0x3ff 0x200 = none",
    );
}

#[test]
fn greatest_spans_that_are_asked_for_come_first(rt: HostRuntime) {
    expect_answers(
        &rt,
        &mut caches_of(&rt, 8),
        "fill el2 5 0x205 0 1 0 = filled\n\
         fill el2 g 0x200 9 2 0 = filled\n\
         fill el2 5 0 18 3 0 = filled\n\
         find el2 5 0x205 0x40201 = value=3 born=0\n\
         find el2 5 0x205 0x201 = value=2 born=0\n\
         find el2 5 0x205 0x1 = value=1 born=0\n\
         find el2 5 0x206 0x1 = none\n\
         find el2 5 0x205 0x0 = none",
    );
}

#[test]
fn higher_bits_of_the_mask_mean_nothing(rt: HostRuntime) {
    expect_answers(
        &rt,
        &mut caches_of(&rt, 8),
        "fill s2 1 0x10 0 1 0 = filled\n\
         find s2 1 0x10 0xffe0000000000000 = none\n\
         find s2 1 0x10 0xffe0000000000001 = value=1 born=0\n\
         find s2 1 0x10 0xffffffffffffffff = value=1 born=0",
    );
}

#[test]
fn substreams_are_spaces_of_their_own(rt: HostRuntime) {
    expect_answers(
        &rt,
        &mut caches_of(&rt, 8),
        "fill atc 7 - 0x10 0 1 0 = filled\n\
         fill atc 7 9 0x20 0 2 0 = filled\n\
         find atc 7 - 0x10 0x1 = value=1 born=0\n\
         find atc 7 9 0x10 0x1 = none\n\
         find atc 7 9 0x20 0x1 = value=2 born=0\n\
         find atc 7 - 0x20 0x1 = none\n\
         find atc 7 0 0x10 0x1 = none\n\
         find atc 8 9 0x20 0x1 = none",
    );
}

#[test]
fn evicted_entries_are_not_found(rt: HostRuntime) {
    expect_answers(
        &rt,
        &mut caches_of(&rt, 8),
        "fill s2 1 0x200 9 1 0 = filled\n\
         fill s2 1 0x210 0 2 0 = filled\n\
         find s2 1 0x210 0x201 = value=1 born=0\n\
         evict s2 1 0x200 9 = value=1 born=0\n\
         find s2 1 0x210 0x201 = value=2 born=0",
    );
}

#[test]
fn whole_entries_are_told(rt: HostRuntime) {
    let mut caches = caches_of(&rt, 8);
    expect_answers(&rt, &mut caches, "fill el2 g 0 52 7 3 = filled");
    let last = found(&caches, "el2 1 0xfffffffffffff 0x10000000000000");
    assert!(rt; last == entry("el2 g 0 52 7 3"));
    caches.are_own();
}
