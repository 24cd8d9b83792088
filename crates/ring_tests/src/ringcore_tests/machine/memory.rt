//! Allocations that fail.
use cmdcodec::{Raw, RawList};
use ringcore::{CoreFault, Step, run};
use std::alloc::Global;

/// Plays two steps in a ring of 4 slots, and returns how it went.
fn outcome(alloc: Global) -> &'static str {
    let mut body = RawList::new();
    body.push(Raw { lo: 0x12, hi: 0 });
    body.push(Raw { lo: 0x20, hi: 0 });
    let steps = [
        Step::Look { who: Some(1) },
        Step::Reserve {
            sender: 1,
            body,
            closes: false,
        },
    ];
    match run(alloc, 2, 3, &steps) {
        Ok((_, None)) => "whole",
        Err(CoreFault::Memory(_)) => "refused",
        _ => "wrong",
    }
}

// Nothing but the machine allocates here, so that each of its allocations can be made to fail.
#[test]
fn every_allocation_of_run(rt: HostRuntime) {
    let outcome = outcome(rt.alloc());
    assert_ne!(rt; outcome, "wrong");
    println!(rt; "every_allocation_of_run: {outcome}").expect(&rt, "the line is printed");
}
