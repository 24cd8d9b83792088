//! Allocations that fail.
ghost use Rattle.std.specs.Prelude.{◌≡◌};

use crate::renewal_tests::pairs::{Pair, new_pair, renewed, translation};
use caches::CacheFault;
use engine::Engine;
use renewal::{RenewalFault, Sizes};
use ring::RingFault;
use std::alloc::Global;
use std::process::Abort;

const SIZES: Sizes = Sizes {
    log2: 3,
    max_batches: 5,
    capacity: 3,
};

fn fill(engine: &mut Engine, page: u64) -> bool
    ensures { engine.new.consumer ≡ engine.old.consumer }
{
    let Some(tag) = translation(page) else {
        return false;
    };
    engine.fill(tag, page).is_ok()
}

fn fill_three(engine: &mut Engine) -> bool
    ensures { engine.new.consumer ≡ engine.old.consumer }
{
    fill(engine, 5) && fill(engine, 6) && fill(engine, 7)
}

/// A queue that holds three entries.
fn filled(alloc: Global) -> Option<Pair> {
    let mut pair = new_pair(alloc, 100).ok()?;
    if fill_three(&mut pair.engine) {
        Some(pair)
    } else {
        None
    }
}

/// Whether the three entries are held, each born 0.
fn holds_all(pair: &Pair) -> bool {
    for page in 5..8u64 {
        let Some(tag) = translation(page) else {
            return false;
        };
        match pair.engine.lookup(&tag) {
            Some(entry) if entry.value == page && entry.born == 0 => {}
            _ => return false,
        }
    }
    true
}

fn is_memory(fault: RenewalFault) -> bool {
    matches!(
        fault,
        RenewalFault::Ring(RingFault::Memory(_)) | RenewalFault::Caches(CacheFault::NoMemory)
    )
}

/// Renews a queue of three entries, and returns how it went. If memory runs out the queue comes back.
fn outcome_of_renewal(rt: &impl Abort, alloc: Global, pair: Pair) -> (Pair, &'static str) {
    let (pair, told) = renewed(rt, alloc, pair, SIZES);
    let outcome = match told {
        Ok(_) if holds_all(&pair) => "whole",
        Err(fault) if is_memory(fault) => "refused",
        _ => "wrong",
    };
    (pair, outcome)
}

/// The same for a queue for which memory ran out before.
fn outcome_then(rt: &impl Abort, alloc: Global, pair: Pair) -> &'static str {
    let outcome = outcome_of_renewal(rt, alloc, pair).1;
    if outcome == "whole" {
        "refused"
    } else {
        "wrong"
    }
}

/// Renews a queue of three entries and returns how it went. If memory runs out it is renewed after that.
fn outcome_of_queue(rt: &impl Abort, alloc: Global, pair: Pair) -> &'static str {
    let (pair, outcome) = outcome_of_renewal(rt, alloc, pair);
    if outcome == "refused" {
        outcome_then(rt, alloc, pair)
    } else {
        outcome
    }
}

/// Makes a queue of three entries and renews it, and returns how it went.
fn outcome(rt: &impl Abort, alloc: Global) -> &'static str {
    match filled(alloc) {
        Some(pair) => outcome_of_queue(rt, alloc, pair),
        None => "refused",
    }
}

// Nothing but the queues allocates here, so that each of their allocations can be made to fail.
#[test]
fn every_allocation_of_a_renewal(rt: HostRuntime) {
    let outcome = outcome(&rt, rt.alloc());
    assert_ne!(rt; outcome, "wrong");
    println!(rt; "every_allocation_of_a_renewal: {outcome}").expect(&rt, "the line is printed");
}
