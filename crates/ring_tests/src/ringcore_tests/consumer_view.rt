//! What the consumer knows after a test, reads and an advance.
use cmdcodec::{closing_sync, encode};
use ringcore::{ConsumerView, Half, StepFault, SyncTallies};
use std::alloc::Global;
use std::process::Abort;

/// Returns both words of the command at an offset, if both were read.
fn command(view: &ConsumerView, offset: u32) -> Option<(u64, u64)> {
    if offset >= 64 {
        return None;
    }
    let raw = view.command(offset)?;
    Some((raw.lo, raw.hi))
}

/// Expects these words as the command at an offset.
fn expect_command(rt: &impl Abort, view: &ConsumerView, offset: u32, wanted: Option<(u64, u64)>) {
    assert_eq!(rt; command(view, offset), wanted);
}

/// Expects that many commands to be taken, and that many to be found.
fn expect_counts(rt: &impl Abort, view: &ConsumerView, taken: u64, found: u32) {
    assert_eq!(rt; (view.taken(), view.found()), (taken, found));
}

#[test]
fn a_test_reads_and_an_advance(rt: HostRuntime) {
    let mut view = ConsumerView::new();
    expect_counts(&rt, &view, 0, 0);
    view.tests(3);
    view.reads(1, Half::Lo, 7);
    expect_command(&rt, &view, 1, None);
    view.reads(1, Half::Hi, 8);
    expect_command(&rt, &view, 1, Some((7, 8)));
    expect_command(&rt, &view, 0, None);
    // A second test begins anew.
    view.tests(2);
    expect_counts(&rt, &view, 0, 2);
    expect_command(&rt, &view, 1, None);
}

#[test]
fn an_advance_ends_what_was_found(rt: HostRuntime) {
    let mut view = ConsumerView::new();
    view.tests(2);
    view.reads(0, Half::Lo, 7);
    view.reads(0, Half::Hi, 8);
    if view.taken() == 0 {
        view.advances(1);
    }
    expect_counts(&rt, &view, 1, 0);
    expect_command(&rt, &view, 0, None);
}

/// Expects an advance past `count` commands, 1 to 64, to be refused for this fault, or not to be refused.
fn expect_fault(rt: &impl Abort, view: &ConsumerView, count: u32, wanted: Option<StepFault>) {
    assert!(rt; 1 <= count && count <= 64);
    assert_eq!(rt; view.advance_fault(count), wanted);
}

#[test]
fn an_advance_is_of_what_was_found_and_read(rt: HostRuntime) {
    let mut view = ConsumerView::new();
    expect_fault(&rt, &view, 1, Some(StepFault::NotSeenReady));
    view.tests(2);
    expect_fault(&rt, &view, 1, Some(StepFault::HalfMissing));
    expect_fault(&rt, &view, 3, Some(StepFault::NotSeenReady));
    view.reads(0, Half::Lo, 7);
    expect_fault(&rt, &view, 1, Some(StepFault::HalfMissing));
    view.reads(0, Half::Hi, 8);
    expect_fault(&rt, &view, 1, None);
    expect_fault(&rt, &view, 2, Some(StepFault::HalfMissing));
}

/// Returns how many syncs of senders 0 and 1 are taken, after one of sender 1 and a command that is none.
fn tallies(alloc: Global) -> Option<(u32, u32)> {
    let mut tallies = SyncTallies::new(alloc, 2).ok()?;
    tallies.takes(encode(&closing_sync(1, 1)));
    let before = (tallies.of(0), tallies.of(1));
    Some(before)
}

#[test]
fn syncs_are_told_by_their_cells(rt: HostRuntime) {
    assert_eq!(rt; tallies(rt.alloc()), Some((0, 1)));
}
