//! Which numbers make a plan.
use stress::Plan;

/// Whether these make a plan in which each batch has a CMD_SYNC.
fn is_plan(log2: u32, senders: u32, batches: u32, turns: u32) -> bool {
    Plan::new(log2, senders, batches, turns).is_some()
}

#[test]
fn numbers_in_range(rt: HostRuntime) {
    assert!(rt; is_plan(1, 1, 1, 1));
    assert!(rt; is_plan(19, 64, 100_000, 10_000_000));
    assert!(rt; Plan::with_bare(1, 1, 1, 1, 100_000).is_some());
}

#[test]
fn numbers_out_of_range(rt: HostRuntime) {
    assert!(rt; !is_plan(0, 1, 1, 1) && !is_plan(20, 1, 1, 1));
    assert!(rt; !is_plan(4, 0, 1, 1) && !is_plan(4, 65, 1, 1));
    assert!(rt; !is_plan(4, 1, 0, 1) && !is_plan(4, 1, 100_001, 1));
    assert!(rt; !is_plan(4, 1, 1, 0) && !is_plan(4, 1, 1, 10_000_001));
    assert!(rt; Plan::with_bare(4, 1, 1, 1, 100_001).is_none());
}

#[test]
fn a_plan_tells_its_numbers(rt: HostRuntime) {
    let plan = Plan::new(4, 3, 10, 1000).expect(&rt, "a plan");
    let numbers = (plan.log2(), plan.senders(), plan.batches(), plan.turns());
    assert_eq!(rt; numbers, (4, 3, 10, 1000));
}
