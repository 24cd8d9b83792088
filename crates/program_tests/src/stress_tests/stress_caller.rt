//! The caller that stress's README shows.
use stress::{NoGate, Plan, run_all};

#[test]
fn two_senders_and_an_engine(rt: HostRuntime) {
    // 16 slots, two senders, ten batches of each, and at most a thousand turns for each thread.
    let plan = Plan::new(4, 2, 10, 1000).expect(&rt, "numbers within their limits");
    let report = run_all(&rt, &plan, &NoGate).expect(&rt, "a report");
    // Batch k of sender s has 1 + (s + k) mod 4 commands ahead of its CMD_SYNC.
    let summary = report.summary();
    assert_eq!(rt;
        (summary.reserved(), summary.taken(), summary.closed()),
        (72, 72, true)
    );
    let counts = report.counts();
    assert_eq!(rt;
        (counts.syncs(), counts.applied(), counts.replaced()),
        (20, 72, 0)
    );
    // Each sender's entry is gone, and each was told that all ten of its batches completed.
    assert_eq!(rt; (counts.removed(), report.entries()), (2, 0));
    assert_eq!(rt; report.done(), &[10u32, 10][..]);
}
