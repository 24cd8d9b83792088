//! Entries that are evicted together.
use crate::caches_tests::calls::{caches_of, expect_answers, lists};
use caches::{Caches, Kind, Kinds, OfMachine, OfStream};
use cmdcodec::{Sid, Vmid};
use std::process::Abort;

#[test]
fn entries_of_a_kind_make_room(rt: HostRuntime) {
    let mut caches = caches_of(&rt, 3);
    expect_answers(
        &rt,
        &mut caches,
        "fill ste 5 7 3 = filled\n\
         fill s2 1 0x10 0 8 3 = filled\n\
         fill ste 6 7 3 = filled\n\
         evict ste 6 = value=7 born=3\n\
         fill ste 7 7 3 = filled\n\
         fill ste 8 7 3 = refused C1",
    );
    assert_eq!(rt; caches.evict_all(&Kind::S1), 0);
    assert_eq!(rt; caches.evict_all(&Kind::Ste), 2);
    expect_answers(
        &rt,
        &mut caches,
        "len = 1\n\
         lookup ste 5 = none\n\
         lookup s2 1 0x10 0 = value=8 born=3\n\
         fill ste 8 9 4 = filled",
    );
}

#[test]
fn what_is_older_is_evicted(rt: HostRuntime) {
    let mut caches = caches_of(&rt, 8);
    expect_answers(
        &rt,
        &mut caches,
        "fill ste 5 7 2 = filled\n\
         fill cd 5 1 7 3 = filled\n\
         fill s1 1 2 8 0 7 4 = filled\n\
         fill s2 1 8 0 7 1 = filled\n\
         evict s2 1 8 0 = value=7 born=1",
    );
    // The entry that is already evicted doesn't count, and what was born at the bound stays.
    assert_eq!(rt; caches.evict_older(2), 0);
    assert_eq!(rt; caches.evict_older(3), 1);
    assert!(rt; lists(&caches, "cd 5 1 7 3\ns1 1 2 8 0 7 4"));
    assert_eq!(rt; caches.evict_older(5), 2);
}

/// Caches that hold an entry of each kind, and one more of each owner.
fn caches_of_each_kind<R: AllocGlobal + Abort>(rt: &R) -> Caches {
    let mut caches = caches_of(rt, 16);
    expect_answers(
        rt,
        &mut caches,
        "fill ste 5 7 3 = filled\n\
         fill ste 6 7 3 = filled\n\
         fill cd 5 1 7 3 = filled\n\
         fill s1 1 2 8 0 7 3 = filled\n\
         fill s1 1 g 8 0 7 3 = filled\n\
         fill s1 5 2 8 0 7 3 = filled\n\
         fill s2 1 8 0 7 3 = filled\n\
         fill el2 2 8 0 7 3 = filled\n\
         fill atc 1 1 8 0 7 3 = filled\n\
         fill atc 5 - 8 0 7 3 = filled\n\
         fill atc 5 1 8 0 7 3 = filled",
    );
    caches
}

#[test]
fn sets_have_the_kinds_that_were_put_in(rt: HostRuntime) {
    let kinds = Kinds::NONE.with(Kind::Cd).with(Kind::S2);
    assert!(rt; kinds.has(Kind::Cd));
    assert!(rt; kinds.has(Kind::S2));
    assert!(rt; !kinds.has(Kind::Ste));
    assert!(rt; !kinds.has(Kind::Atc));
}

#[test]
fn entries_of_some_kinds_are_evicted(rt: HostRuntime) {
    let mut caches = caches_of_each_kind(&rt);
    assert_eq!(rt; caches.evict_all(&Kinds::NONE), 0);
    let kinds = Kinds::NONE.with(Kind::Ste).with(Kind::S1).with(Kind::Atc);
    assert_eq!(rt; caches.evict_all(&kinds), 8);
    let left = "cd 5 1 7 3\ns2 1 8 0 7 3\nel2 2 8 0 7 3";
    assert!(rt; lists(&caches, left));
    assert_eq!(rt; caches.evict_all(&Kinds::ALL), 3);
}

#[test]
fn what_is_held_of_a_stream_is_evicted(rt: HostRuntime) {
    let mut caches = caches_of_each_kind(&rt);
    let stream = OfStream(Sid::new(5).expect(&rt, "32 bits"));
    assert_eq!(rt; caches.evict_all(&stream), 4);
    let left = "ste 6 7 3\n\
                s1 1 g 8 0 7 3\n\
                s1 1 2 8 0 7 3\n\
                s1 5 2 8 0 7 3\n\
                s2 1 8 0 7 3\n\
                el2 2 8 0 7 3\n\
                atc 1 1 8 0 7 3";
    assert!(rt; lists(&caches, left));
}

#[test]
fn what_is_held_of_a_machine_is_evicted(rt: HostRuntime) {
    let mut caches = caches_of_each_kind(&rt);
    let machine = OfMachine(Vmid::new(1).expect(&rt, "16 bits"));
    assert_eq!(rt; caches.evict_all(&machine), 3);
    let left = "ste 5 7 3\n\
                ste 6 7 3\n\
                cd 5 1 7 3\n\
                s1 5 2 8 0 7 3\n\
                el2 2 8 0 7 3\n\
                atc 1 1 8 0 7 3\n\
                atc 5 - 8 0 7 3\n\
                atc 5 1 8 0 7 3";
    assert!(rt; lists(&caches, left));
}
