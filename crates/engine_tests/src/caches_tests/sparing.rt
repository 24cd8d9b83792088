//! Commands that cover nothing, or only some kinds.
use crate::caches_tests::calls::{caches_of, expect_answers, lists};
use std::process::Abort;

/// An entry of each kind, in the order of their tags.
const EACH: &str = "ste 5 7 3\n\
                    cd 5 1 7 3\n\
                    s1 1 2 8 0 7 3\n\
                    s2 1 8 0 7 3\n\
                    el2 2 8 0 7 3\n\
                    atc 5 1 8 0 7 3";

/// Makes a call of caches that hold an entry of each kind, and expects these to be left.
fn expect_left<R: AllocGlobal + Abort>(rt: &R, call: &str, left: &str) {
    let mut caches = caches_of(rt, 6);
    expect_answers(
        rt,
        &mut caches,
        "fill ste 5 7 3 = filled\n\
         fill cd 5 1 7 3 = filled\n\
         fill s1 1 2 8 0 7 3 = filled\n\
         fill s2 1 8 0 7 3 = filled\n\
         fill el2 2 8 0 7 3 = filled\n\
         fill atc 5 1 8 0 7 3 = filled",
    );
    expect_answers(rt, &mut caches, call);
    assert!(rt; lists(&caches, left), "{call}");
}

#[test]
fn these_cover_nothing(rt: HostRuntime) {
    let calls = "apply 0x500000001 0x0 PREFETCH_CONFIG lo=0x500000001 hi=0x0 = 0\n\
                 apply 0x500000002 0x0 PREFETCH_ADDR lo=0x500000002 hi=0x0 = 0\n\
                 apply 0x500000041 0x0 PRI_RESP lo=0x500000041 hi=0x0 = 0\n\
                 apply 0x500000044 0x0 RESUME lo=0x500000044 hi=0x0 = 0\n\
                 apply 0x500000045 0x0 STALL_TERM lo=0x500000045 hi=0x0 = 0\n\
                 apply 0x46 0x0 CMD_SYNC cs=0 msh=0 attr=0 data=0 addr=0x0 = 0";
    for call in calls.lines() {
        expect_left(&rt, call, EACH);
    }
}

#[test]
fn these_cover_one_cache_alone(rt: HostRuntime) {
    // CFGI_ALL is CFGI_STE_RANGE with Range 31.
    expect_left(
        &rt,
        "apply 0x4 0x1f CFGI_STE_RANGE sid=0 range=31 = 2",
        "s1 1 2 8 0 7 3\n\
         s2 1 8 0 7 3\n\
         el2 2 8 0 7 3\n\
         atc 5 1 8 0 7 3",
    );
    expect_left(
        &rt,
        "apply 0x30 0x0 TLBI_NSNH_ALL = 2",
        "ste 5 7 3\n\
         cd 5 1 7 3\n\
         el2 2 8 0 7 3\n\
         atc 5 1 8 0 7 3",
    );
    expect_left(
        &rt,
        "apply 0x20 0x0 TLBI_EL2_ALL = 1",
        "ste 5 7 3\n\
         cd 5 1 7 3\n\
         s1 1 2 8 0 7 3\n\
         s2 1 8 0 7 3\n\
         atc 5 1 8 0 7 3",
    );
    expect_left(
        &rt,
        "apply 0x500000040 0x34 ATC_INV sid=5 ssv=0 ssid=0 global=0 size=52 addr=0x0 = 1",
        "ste 5 7 3\n\
         cd 5 1 7 3\n\
         s1 1 2 8 0 7 3\n\
         s2 1 8 0 7 3\n\
         el2 2 8 0 7 3",
    );
}
