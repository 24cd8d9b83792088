//! Worked runs, with the words of their commands.
use crate::caches_tests::calls::{caches_of, expect_answers, lists};

#[test]
fn global_entries(rt: HostRuntime) {
    expect_answers(
        &rt,
        &mut caches_of(&rt, 8),
        "fill s1 1 2 0x10 0 100 0 = filled\n\
         fill s1 1 g 0x10 0 200 0 = filled\n\
         apply 0x2000100000011 0x0 TLBI_NH_ASID vmid=1 asid=2 = 1\n\
         lookup s1 1 2 0x10 0 = none\n\
         lookup s1 1 g 0x10 0 = value=200 born=0\n\
         apply 0x3000100000012 0x10000 TLBI_NH_VA vmid=1 asid=3 leaf=0 addr=0x10000 = 1\n\
         lookup s1 1 g 0x10 0 = none\n\
         len = 0",
    );
}

#[test]
fn blocks_of_streams_and_born(rt: HostRuntime) {
    let mut caches = caches_of(&rt, 8);
    expect_answers(
        &rt,
        &mut caches,
        "fill ste 4 1 0 = filled\n\
         fill ste 5 2 0 = filled\n\
         fill ste 6 3 0 = filled\n\
         fill cd 5 1 9 0 = filled\n\
         apply 0x500000004 0x0 CFGI_STE_RANGE sid=5 range=0 = 3\n\
         fill ste 5 8 2 = filled",
    );
    assert!(rt; lists(&caches, "ste 5 8 2\nste 6 3 0"));
}

// Pages 10 and 11 meet the block 8 to 15.
#[test]
fn endpoints(rt: HostRuntime) {
    expect_answers(
        &rt,
        &mut caches_of(&rt, 8),
        "fill atc 7 - 0 0 1 0 = filled\n\
         fill atc 7 9 8 3 2 0 = filled\n\
         fill atc 7 - 1 1 7 3 = refused C2\n\
         apply 0x700009840 0xa001 ATC_INV sid=7 ssv=1 ssid=9 global=0 size=1 addr=0xa000 = 1\n\
         lookup atc 7 - 0 0 = value=1 born=0\n\
         len = 1",
    );
}
