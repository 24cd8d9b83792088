//! Allocations that fail.
use crate::caches_tests::notation::{cd, ste};
use caches::{CacheFault, Caches, Entry};
use std::alloc::Global;

/// Inserts an entry, a second time if memory runs out. Returns whether the first time did, or None if an answer is
/// wrong.
fn fill(caches: &mut Caches, new: Entry) -> Option<bool> {
    let before = caches.len();
    match caches.fill(new) {
        Ok(None) => Some(true),
        Err(CacheFault::NoMemory) if caches.len() == before && caches.lookup(&new.tag).is_none() =>
            {
                match caches.fill(new) {
                    Ok(None) => Some(false),
                    _ => None,
                }
            }
        _ => None,
    }
}

/// Returns the sum of the values that are listed.
fn sum(caches: &Caches) -> Option<u64> {
    match caches.entries() {
        Ok(list) => Some(
            list.iter()
                .fold(0, |sum: u64, held| sum.wrapping_add(held.value)),
        ),
        Err(CacheFault::NoMemory) => None,
        Err(_) => Some(0),
    }
}

/// Fills and lists, and returns how it went. Memory may run out for one call, and is there again after it.
fn run(alloc: Global) -> &'static str {
    let mut outcome = "whole";
    let Ok(mut caches) = Caches::new(alloc, 40) else {
        return "wrong";
    };
    for stream in 0..20u32 {
        for new in [ste(stream), cd(19 - stream)] {
            match fill(&mut caches, new) {
                Some(true) => {}
                Some(false) => outcome = "refused",
                None => return "wrong",
            }
        }
    }
    let first = sum(&caches);
    if first.is_none() {
        outcome = "refused";
    }
    match first.or(sum(&caches)) {
        Some(280) if caches.len() == 40 => outcome,
        _ => "wrong",
    }
}

// Nothing but the caches allocates here, so that each of their allocations can be made to fail.
#[test]
fn every_allocation_of_caches(rt: HostRuntime) {
    let outcome = run(rt.alloc());
    assert_ne!(rt; outcome, "wrong");
    println!(rt; "every_allocation_of_caches: {outcome}").expect(&rt, "the line is printed");
}
