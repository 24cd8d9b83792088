//! What a command would remove.
use crate::caches_tests::calls::{caches_of, expect_answers, lists};
use crate::caches_tests::notation::{cd, ste};
use caches::{Caches, Entry};
use cmdcodec::{Command, Sid};
use std::process::Abort;

/// What is held of streams 5 and 6. The context descriptor of substream 2 was evicted, which only lists it as removed.
const HELD: &str = "ste 5 7 3\n\
                    ste 6 7 3\n\
                    cd 5 1 7 3";

/// Caches that hold this.
fn caches_of_streams<R: AllocGlobal + Abort>(rt: &R) -> Caches {
    let mut caches = caches_of(rt, 8);
    expect_answers(
        rt,
        &mut caches,
        "fill ste 5 7 3 = filled\n\
         fill cd 5 1 7 3 = filled\n\
         fill cd 5 2 7 3 = filled\n\
         fill ste 6 7 3 = filled\n\
         evict cd 5 2 = value=7 born=3",
    );
    caches
}

/// CFGI_STE of a stream.
fn cfgi_ste(stream: u32) -> Command {
    let sid = Sid::new(u64::from(stream)).unwrap();
    Command::CfgiSte { sid, leaf: true }
}

/// Whether these are the stream table entry of stream 5 and its context descriptor, in some order.
fn are_both(told: &[Entry]) -> bool {
    told.len() == 2 && told.contains(&ste(5)) && told.contains(&cd(5))
}

#[test]
fn all_are_told_where_there_is_room(rt: HostRuntime) {
    let caches = caches_of_streams(&rt);
    let mut entries = [ste(9); 4];
    assert_eq!(rt; caches.covered(&cfgi_ste(5), &mut entries), 2);
    assert!(rt; are_both(&entries[..2]));
    assert_eq!(rt; entries[2], ste(9));
    assert_eq!(rt; entries[3], ste(9));
    assert!(rt; lists(&caches, HELD));
}

#[test]
fn all_are_counted_where_there_is_less_room(rt: HostRuntime) {
    let caches = caches_of_streams(&rt);
    let mut entries = [ste(9)];
    assert_eq!(rt; caches.covered(&cfgi_ste(5), &mut entries), 2);
    assert!(rt; entries[0] == ste(5) || entries[0] == cd(5));
    assert_eq!(rt; caches.covered(&cfgi_ste(5), &mut []), 2);
}

#[test]
fn none_are_told_where_none_are_covered(rt: HostRuntime) {
    let caches = caches_of_streams(&rt);
    let mut entries = [ste(9); 2];
    assert_eq!(rt; caches.covered(&cfgi_ste(7), &mut entries), 0);
    assert_eq!(rt; entries[0], ste(9));
    assert_eq!(rt; caches_of(&rt, 8).covered(&cfgi_ste(5), &mut entries), 0);
}
