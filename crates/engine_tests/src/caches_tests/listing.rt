//! All entries, in the order of their tags.
use crate::caches_tests::calls::{caches_of, expect_answers, expect_filled, lists};
use crate::caches_tests::notation::{cd, ste};
use caches::Caches;

#[test]
fn entries_stand_in_the_order_of_tags(rt: HostRuntime) {
    let mut caches = caches_of(&rt, 32);
    assert!(rt; lists(&caches, ""));
    expect_answers(
        &rt,
        &mut caches,
        "fill atc 2 - 0 52 7 3 = filled\n\
         fill atc 1 0 2 0 7 3 = filled\n\
         fill atc 1 - 2 1 7 3 = filled\n\
         fill el2 65535 0 0 7 3 = filled\n\
         fill el2 g 5 0 7 3 = filled\n\
         fill s2 1 4 2 7 3 = filled\n\
         fill s2 0 0 40 7 3 = filled\n\
         fill s1 2 g 0 0 7 3 = filled\n\
         fill s1 1 0 8 0 7 3 = filled\n\
         fill s1 1 0 0 1 7 3 = filled\n\
         fill s1 1 0 0 0 7 3 = filled\n\
         fill s1 1 g 16 0 7 3 = filled\n\
         fill cd 1 7 7 3 = filled\n\
         fill cd 1 0 7 3 = filled\n\
         fill ste 9 7 3 = filled\n\
         fill ste 0 7 3 = filled\n\
         len = 16",
    );
    let listed = "ste 0 7 3\n\
                  ste 9 7 3\n\
                  cd 1 0 7 3\n\
                  cd 1 7 7 3\n\
                  s1 1 g 16 0 7 3\n\
                  s1 1 0 0 0 7 3\n\
                  s1 1 0 0 1 7 3\n\
                  s1 1 0 8 0 7 3\n\
                  s1 2 g 0 0 7 3\n\
                  s2 0 0 40 7 3\n\
                  s2 1 4 2 7 3\n\
                  el2 g 5 0 7 3\n\
                  el2 65535 0 0 7 3\n\
                  atc 1 - 2 1 7 3\n\
                  atc 1 0 2 0 7 3\n\
                  atc 2 - 0 52 7 3";
    assert!(rt; lists(&caches, listed));
}

/// Whether stream table entries of streams 0 to 32,767 are listed, and then a context descriptor of each.
fn lists_both_of_each_stream(caches: &Caches) -> bool {
    match caches.entries() {
        Ok(list) => {
            list.len() == 65_536
                && list.as_slice().get(0) == Some(&ste(0))
                && list.as_slice().get(32_767) == Some(&ste(32_767))
                && list.as_slice().get(32_768) == Some(&cd(0))
                && list.as_slice().get(65_535) == Some(&cd(32_767))
        }
        Err(_) => false,
    }
}

#[test]
fn as_many_entries_as_there_may_be(rt: HostRuntime) {
    let mut caches = caches_of(&rt, 65_536);
    for stream in 0..32_768u32 {
        expect_filled(&rt, &mut caches, cd(stream));
        expect_filled(&rt, &mut caches, ste(stream));
    }
    assert!(rt; lists_both_of_each_stream(&caches));
}
