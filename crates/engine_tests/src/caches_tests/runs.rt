//! Blocks that meet a run of pages.
use crate::caches_tests::calls::{caches_of, expect_answers};

#[test]
fn an_address_takes_every_block_that_holds_it(rt: HostRuntime) {
    expect_answers(
        &rt,
        &mut caches_of(&rt, 8),
        "fill s1 1 2 0 52 7 3 = filled\n\
         fill s1 1 2 0 0 7 3 = filled\n\
         fill s1 1 2 0x10 4 7 3 = filled\n\
         fill s1 1 2 0x18 3 7 3 = filled\n\
         fill s1 1 g 0x18 3 7 3 = filled\n\
         apply 0x2000100000012 0x1c000 TLBI_NH_VA vmid=1 asid=2 leaf=0 addr=0x1c000 = 4\n\
         len = 1\n\
         lookup s1 1 2 0 0 = value=7 born=3",
    );
}

#[test]
fn global_leaves_entries_of_no_substream(rt: HostRuntime) {
    expect_answers(
        &rt,
        &mut caches_of(&rt, 8),
        "fill atc 7 - 0 0 7 3 = filled\n\
         fill atc 7 9 0 0 7 3 = filled\n\
         apply 0x700009a40 0x34 ATC_INV sid=7 ssv=1 ssid=9 global=1 size=52 addr=0x0 = 1\n\
         lookup atc 7 - 0 0 = value=7 born=3\n\
         apply 0x700009240 0x34 ATC_INV sid=7 ssv=0 ssid=9 global=1 size=52 addr=0x0 = 1\n\
         len = 0",
    );
}
