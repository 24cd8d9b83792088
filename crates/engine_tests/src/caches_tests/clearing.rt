//! Caches that are emptied.
use crate::caches_tests::calls::{caches_of, expect_answers};

#[test]
fn cleared_caches_are_filled_again(rt: HostRuntime) {
    let mut caches = caches_of(&rt, 3);
    expect_answers(
        &rt,
        &mut caches,
        "fill ste 5 7 3 = filled\n\
         fill el2 g 0x200 9 8 3 = filled\n\
         fill atc 5 - 0x10 0 9 3 = filled\n\
         evict ste 5 = value=7 born=3",
    );
    caches.clear();
    expect_answers(
        &rt,
        &mut caches,
        "len = 0\n\
         lookup el2 g 0x200 9 = none\n\
         find el2 2 0x2ff 0x200 = none\n\
         find atc 5 - 0x10 0x1 = none\n\
         fill ste 5 1 4 = filled\n\
         fill el2 g 0x200 9 2 4 = filled\n\
         fill atc 5 - 0x10 0 3 4 = filled\n\
         fill ste 6 4 4 = refused C1\n\
         find el2 2 0x2ff 0x200 = value=2 born=4",
    );
}
