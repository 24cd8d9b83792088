//! Whole runs, and the lines of their reports.
use ring::Receipt;
use std::sync::atomic::{AtomicBool, Ordering};
use std::test::Fail;
use std::thread::Threads;
use stress::{Gate, NoGate, Plan, StressFault, run_all};

#[test]
fn four_senders(rt: HostRuntime) {
    let plan = Plan::new(4, 4, 1000, 100_000).expect(&rt, "a plan");
    let report = run_all(&rt, &plan, &NoGate).expect(&rt, "a report");
    let text = report.text(rt.alloc()).expect(&rt, "there is memory");
    let wanted = "senders 4\n\
                  batches 4000\n\
                  commands 14000\n\
                  syncs 4000\n\
                  applied 14000\n\
                  replaced 0\n\
                  removed 4\n\
                  entries 0\n\
                  left 0\n\
                  closed yes\n\
                  sender 0 batches 1000 done 1000\n\
                  sender 1 batches 1000 done 1000\n\
                  sender 2 batches 1000 done 1000\n\
                  sender 3 batches 1000 done 1000\n";
    assert_eq!(rt; text.as_str(), wanted);
}

#[test]
fn every_third_batch_is_bare(rt: HostRuntime) {
    let plan = Plan::with_bare(4, 4, 1000, 100_000, 3).expect(&rt, "a plan");
    let report = run_all(&rt, &plan, &NoGate).expect(&rt, "a report");
    let text = report.text(rt.alloc()).expect(&rt, "there is memory");
    let wanted = "senders 4\n\
                  batches 4000\n\
                  commands 12668\n\
                  syncs 2668\n\
                  applied 12668\n\
                  replaced 0\n\
                  removed 4\n\
                  entries 0\n\
                  left 0\n\
                  closed yes\n\
                  sender 0 batches 1000 done 667\n\
                  sender 1 batches 1000 done 667\n\
                  sender 2 batches 1000 done 667\n\
                  sender 3 batches 1000 done 667\n";
    assert_eq!(rt; text.as_str(), wanted);
}

#[test]
fn the_smallest_run(rt: HostRuntime) {
    let plan = Plan::new(1, 1, 1, 1).expect(&rt, "a plan");
    let report = run_all(&rt, &plan, &NoGate).expect(&rt, "a report");
    let (summary, counts) = (report.summary(), report.counts());
    assert_eq!(rt;
        (summary.reserved(), summary.taken(), summary.closed()),
        (2, 2, true)
    );
    let counted = (
        counts.syncs(),
        counts.applied(),
        counts.replaced(),
        counts.removed(),
    );
    let rest = (report.plan(), report.entries(), report.done());
    assert_eq!(rt; (counted, rest), ((1, 2, 0, 1), (plan, 0, &[1u32][..])));
}

#[test]
fn all_batches_are_bare(rt: HostRuntime) {
    let plan = Plan::with_bare(1, 3, 5, 7, 1).expect(&rt, "a plan");
    let report = run_all(&rt, &plan, &NoGate).expect(&rt, "a report");
    let (summary, counts) = (report.summary(), report.counts());
    let counted = (summary.taken(), counts.syncs(), counts.removed());
    assert_eq!(rt; (counted, report.done()), ((15, 0, 3), &[0u32, 0, 0][..]));
}

#[test]
fn a_distance_of_bare_batches_that_is_never_reached(rt: HostRuntime) {
    let plan = Plan::with_bare(4, 2, 10, 100_000, 11).expect(&rt, "a plan");
    let report = run_all(&rt, &plan, &NoGate).expect(&rt, "a report");
    assert_eq!(rt;
        (report.summary().taken(), report.counts().syncs()),
        (72, 20)
    );
}

/// Each worker has one turn, so all but a few batches are sent in the last part.
#[test]
fn many_senders_and_a_turn_each(rt: HostRuntime) {
    let plan = Plan::new(1, 64, 3, 1).expect(&rt, "a plan");
    let report = run_all(&rt, &plan, &NoGate).expect(&rt, "a report");
    assert_eq!(rt;
        (report.summary().taken(), report.counts().removed()),
        (384, 64)
    );
}

/// 8 x 20,000 batches of 1 + ((s + k) mod 4) commands and a CMD_SYNC: 400,000 commands and 160,000 CMD_SYNCs.
#[test]
fn eight_senders_and_many_batches(rt: HostRuntime) {
    let plan = Plan::new(10, 8, 20_000, 10_000_000).expect(&rt, "a plan");
    let report = run_all(&rt, &plan, &NoGate).expect(&rt, "a report");
    let (summary, counts) = (report.summary(), report.counts());
    let sent = (summary.reserved(), summary.taken());
    let counted = (counts.syncs(), counts.applied(), counts.removed());
    assert_eq!(rt;
        (sent, counted),
        ((560_000, 560_000), (160_000, 560_000, 8))
    );
    assert_eq!(rt; report.done(), &[20_000u32; 8][..]);
}

/// Notes that a worker or the engine has begun.
#[derive(Drop)]
struct Beginning {
    has_begun: AtomicBool,
}

impl Gate for Beginning {
    fn before(&self, _sender: u32, _batch: u32) {
        self.has_begun.store(true, Ordering::SeqCst);
    }

    fn after(&self, _sender: u32, _batch: u32, _receipt: Option<&Receipt>) {}

    fn turn(&self, _turn: u32) {
        self.has_begun.store(true, Ordering::SeqCst);
    }
}

/// Runs the smallest run and writes the lines of its report: whole, refused as memory ran out, or wrong. A run is
/// refused before it has begun, or not at all.
fn outcome<R: Threads + AllocGlobal + Sync>(rt: &R) -> &'static str {
    let Some(plan) = Plan::new(1, 1, 1, 1) else {
        return "wrong";
    };
    let gate = Beginning {
        has_begun: AtomicBool::new(false),
    };
    let run = run_all(rt, &plan, &gate);
    let has_begun = gate.has_begun.load(Ordering::SeqCst);
    let report = match run {
        Ok(report) => report,
        Err(StressFault::NoMemory) if !has_begun => return "refused",
        Err(_) => return "wrong",
    };
    match report.text(rt.alloc()) {
        Ok(text)
            if text
                .as_str()
                .starts_with("senders 1\nbatches 1\ncommands 2\n") => "whole",
        Ok(_) => "wrong",
        Err(_) => "refused",
    }
}

// Nothing but the run and its text allocates here, so that each of its allocations can be made to fail.
#[test]
fn every_allocation_of_the_smallest_run(rt: HostRuntime) {
    let outcome = outcome(&rt);
    assert_ne!(rt; outcome, "wrong");
    println!(rt; "every_allocation_of_the_smallest_run: {outcome}").expect(
        &rt,
        "the line is printed",
    );
}
