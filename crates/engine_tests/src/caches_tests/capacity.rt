//! Capacity, refusals and blocks of streams.
use crate::caches_tests::calls::{caches_of, expect_answers, expect_filled};
use crate::caches_tests::notation::ste;
use caches::{CacheFault, Caches};

#[test]
fn the_capacity_is_1_to_65536(rt: HostRuntime) {
    assert!(rt; matches!(Caches::new(rt.alloc(), 0), Err(CacheFault::BadCapacity)));
    assert!(rt;
        matches!(
            Caches::new(rt.alloc(), 65_537),
            Err(CacheFault::BadCapacity)
        )
    );
    assert!(rt; Caches::new(rt.alloc(), 65_536).is_ok());
}

#[test]
fn a_range_takes_its_block_of_streams(rt: HostRuntime) {
    let mut caches = caches_of(&rt, 65_536);
    for stream in 0..65_536u32 {
        expect_filled(&rt, &mut caches, ste(stream));
    }
    expect_answers(
        &rt,
        &mut caches,
        "fill ste 65536 7 3 = refused C1\n\
         fill ste 5 7 3 = replaced value=7 born=3\n\
         apply 0x9c4000000004 0x9 CFGI_STE_RANGE sid=40000 range=9 = 1024\n\
         len = 64512\n\
         lookup ste 39935 = value=7 born=3\n\
         lookup ste 39936 = none\n\
         lookup ste 40959 = none\n\
         evict ste 40960 = value=7 born=3\n\
         evict ste 40960 = none",
    );
}

#[test]
fn the_upper_half_of_the_streams_is_a_block(rt: HostRuntime) {
    expect_answers(
        &rt,
        &mut caches_of(&rt, 4),
        "fill ste 2147483647 7 3 = filled\n\
         fill ste 2147483648 7 3 = filled\n\
         apply 0xffffffff00000004 0x1e CFGI_STE_RANGE sid=4294967295 range=30 = 1\n\
         lookup ste 2147483647 = value=7 born=3",
    );
}

// A malformed block is told before full caches.
#[test]
fn blocks_are_refused_by_their_form(rt: HostRuntime) {
    expect_answers(
        &rt,
        &mut caches_of(&rt, 4),
        "fill s2 1 0xffffffffff 0 7 3 = filled\n\
         fill s2 1 0x10000000000 0 7 3 = refused C2\n\
         fill s2 1 0 40 7 3 = filled\n\
         fill s2 1 0 41 7 3 = refused C2\n\
         fill s1 1 2 0 52 7 3 = filled\n\
         fill s1 1 2 0 53 7 3 = refused C2\n\
         fill ste 0 7 3 = filled\n\
         fill s1 1 2 1 1 7 3 = refused C2\n\
         fill s1 1 2 2 1 7 3 = refused C1\n\
         lookup s1 1 2 0 255 = none",
    );
}

#[test]
fn faults_say_what_they_mean(rt: HostRuntime) {
    for (fault, text) in [
        (CacheFault::Full, "C1: the caches are full"),
        (CacheFault::BadBlock, "C2: the block isn't well formed"),
        (CacheFault::NoMemory, "C3: out of memory"),
        (
            CacheFault::BadCapacity,
            "C4: the capacity isn't 1 to 65,536",
        ),
    ] {
        let told = fault.to_string(rt.alloc()).expect(&rt, "memory");
        assert_eq!(rt; told.as_str(), text);
    }
}
