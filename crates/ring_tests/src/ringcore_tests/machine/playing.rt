//! Lists of steps, and what a machine is made of.
use crate::ringcore_tests::machine::calls::expect_answers;
use crate::ringcore_tests::machine::steps::steps;
use ringcore::{Core, CoreFault, Step, StepFault, run};
use std::alloc::Global;
use std::process::Abort;

/// Sender 1 sends two batches of two commands, which are taken: then the control word is again the one sender 0 looked
/// at.
const TWO_LAPS: &str = "\
    look 0 = open 0 0\n\
    look 1 = open 0 0\n\
    reserve-ste 1 = reserved 0 1\n\
    write 1 0 0 = written\n\
    write 1 0 1 = written\n\
    flip 1 0 1 = flipped 0x1\n\
    write 1 1 0 = written\n\
    write 1 1 1 = written\n\
    flip 1 1 1 = flipped 0x1\n\
    test 0 1 = ready 1\n\
    read 0 0 = half 0x500000003\n\
    read 0 1 = half 0x1\n\
    advance 1 = open 2 1\n\
    test 1 1 = ready 1\n\
    read 1 0 = half 0x100001046\n\
    read 1 1 = half 0x40000004\n\
    advance 1 = open 2 2\n\
    ack 1 1 = acknowledged\n\
    look 1 = open 2 2\n\
    reserve-ste 1 = reserved 2 2\n\
    write 1 0 0 = written\n\
    write 1 0 1 = written\n\
    write 1 1 0 = written\n\
    write 1 1 1 = written\n\
    flip 1 0 1 = flipped 0x0\n\
    flip 1 1 1 = flipped 0x0\n\
    test 0 1 = ready 1\n\
    read 0 0 = half 0x500000003\n\
    read 0 1 = half 0x1\n\
    advance 1 = open 0 3\n\
    test 1 1 = ready 1\n\
    read 1 0 = half 0x200001046\n\
    read 1 1 = half 0x40000004\n\
    advance 1 = open 0 0\n\
    # Sender 0 wins by its look of two laps before.\n\
    reserve-ste 0 = reserved 0 1\n\
    look 1 = open 2 0\n\
    reserve-ste 1 = F9";

#[test]
fn two_laps_are_answered(rt: HostRuntime) {
    let mut core = Core::new(rt.alloc(), 1, 2).expect(&rt, "a machine");
    expect_answers(&rt, &mut core, TWO_LAPS);
}

/// Returns the machine that played the steps of a text, and expects `wanted` to be the step refused, and why.
fn played<R: AllocGlobal + Abort>(
    rt: &R,
    log2: u32,
    senders: u32,
    text: &str,
    wanted: Option<(usize, StepFault)>,
) -> Core {
    let steps = steps(rt.alloc(), text).expect(rt, "steps");
    let (core, refused) = run(rt.alloc(), log2, senders, steps.as_slice()).expect(rt, "a machine");
    assert_eq!(rt; refused, wanted);
    core
}

#[test]
fn the_control_word_returns_after_two_laps(rt: HostRuntime) {
    let mut core = played(&rt, 1, 2, TWO_LAPS, Some((36, StepFault::NoRoom)));
    // The steps before it are done: sender 0 has both slots, in the first lap's indexes.
    expect_answers(
        &rt,
        &mut core,
        "control = open 2 0\n\
         look 0 = open 2 0\n\
         reserve-ste 0 = F10",
    );
}

#[test]
fn a_list_may_be_empty(rt: HostRuntime) {
    let mut core = played(&rt, 19, 256, "", None);
    expect_answers(&rt, &mut core, "control = open 0 0");
}

#[test]
fn a_list_may_be_without_fault(rt: HostRuntime) {
    let mut core = played(&rt, 1, 2, "look 1\nbare 1 1 2", None);
    expect_answers(&rt, &mut core, "control = open 2 0");
}

/// Returns why no machine of these numbers plays a list of one step.
fn why_not(alloc: Global, log2: u32, senders: u32) -> Option<CoreFault> {
    run(alloc, log2, senders, &[Step::Look { who: Some(0) }]).err()
}

/// Expects this fault to forbid a machine of these numbers, or, without one, a machine.
fn expect_fault<R: AllocGlobal + Abort>(
    rt: &R,
    log2: u32,
    senders: u32,
    wanted: Option<CoreFault>,
) {
    assert_eq!(rt; why_not(rt.alloc(), log2, senders), wanted);
}

// The size is told first.
#[test]
fn numbers_out_of_range_make_no_machine(rt: HostRuntime) {
    expect_fault(&rt, 0, 1, Some(CoreFault::Size));
    expect_fault(&rt, 20, 1, Some(CoreFault::Size));
    expect_fault(&rt, 1, 0, Some(CoreFault::Senders));
    expect_fault(&rt, 1, 257, Some(CoreFault::Senders));
    expect_fault(&rt, 20, 257, Some(CoreFault::Size));
    expect_fault(&rt, 1, 1, None);
    expect_fault(&rt, 1, 256, None);
}
