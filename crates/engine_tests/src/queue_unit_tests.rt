//! A unit for a queue that its owner may write over.
use crate::commands::{ILLEGAL, LEGAL};
use caches::{AddressSpace, Caches, Tag};
use cmdcodec::{Ill, Page, Raw, Sid, Vmid};
use engine::{AckFault, JudgeFault, Judgement, QueueError, QueueUnit, StopRemedy};
use std::alloc::Global;
use std::process::Abort;

/// CMD_SYNC with CS 0.
const SYNC: Raw = Raw { lo: 0x46, hi: 0 };

/// A unit whose caches hold the stream table entry of stream 5, which `LEGAL` covers.
fn holding_stream_5(rt: &impl Abort, alloc: Global) -> QueueUnit {
    let sid = Sid::new(5).expect(rt, "a stream");
    let mut queue = QueueUnit::new(Caches::new(alloc, 2).expect(rt, "room for two"));
    assert!(rt; queue.unit.fill(Tag::Ste { sid }, 7).is_ok());
    queue
}

/// Stops a unit at `ILLEGAL`, and acknowledges that with this remedy.
fn stop_and_acknowledge(rt: &impl Abort, queue: &mut QueueUnit, remedy: StopRemedy) {
    let stopped = queue.judge(ILLEGAL);
    assert_eq!(rt; stopped, Ok(Judgement::Stopped(Ill::UnknownOpcode)));
    assert_eq!(rt; queue.judge(LEGAL), Err(JudgeFault::StillStopped));
    assert_eq!(rt; queue.acknowledge(1, remedy), Ok(()));
}

/// Stops a unit that isn't stopped for an error that was found.
fn stop_for(rt: &impl Abort, queue: &mut QueueUnit, error: QueueError) {
    let stopped = queue.stopped();
    assert!(rt; !stopped);
    queue.stop(error);
}

/// Restores the registers of a unit that isn't stopped.
fn restore(rt: &impl Abort, queue: &mut QueueUnit, words: (u32, u32), error: QueueError) {
    let stopped = queue.stopped();
    assert!(rt; !stopped);
    queue.restore(words.0, words.1, error);
}

#[test]
fn words_are_judged_without_their_command(rt: HostRuntime) {
    let mut queue = holding_stream_5(&rt, rt.alloc());
    assert_eq!(rt; queue.judge(SYNC), Ok(Judgement::Applied { removed: 0 }));
    assert_eq!(rt; queue.unit.len(), 1);
    assert_eq!(rt; queue.judge(LEGAL), Ok(Judgement::Applied { removed: 1 }));
    assert_eq!(rt; queue.unit.len(), 0);
    assert_eq!(rt; queue.judge(LEGAL), Ok(Judgement::Applied { removed: 0 }));
    assert_eq!(rt; queue.unit.counts().taken(), 3);
}

#[test]
fn other_words_behind_a_retry_are_refused(rt: HostRuntime) {
    let mut queue = holding_stream_5(&rt, rt.alloc());
    stop_and_acknowledge(&rt, &mut queue, StopRemedy::Retry);
    assert_eq!(rt; queue.judge(LEGAL), Err(JudgeFault::OtherCommand));
    let again = queue.judge(ILLEGAL);
    assert_eq!(rt; again, Ok(Judgement::Stopped(Ill::UnknownOpcode)));
}

#[test]
fn the_illegal_command_is_replaced(rt: HostRuntime) {
    let mut queue = holding_stream_5(&rt, rt.alloc());
    stop_and_acknowledge(&rt, &mut queue, StopRemedy::Replace);
    let replaced = queue.judge(ILLEGAL);
    assert_eq!(rt; replaced, Ok(Judgement::Replaced(Ill::UnknownOpcode)));
    assert_eq!(rt; queue.judge(LEGAL), Ok(Judgement::Applied { removed: 1 }));
}

#[test]
fn words_that_were_written_over_are_taken_without_effect(rt: HostRuntime) {
    let mut queue = holding_stream_5(&rt, rt.alloc());
    stop_and_acknowledge(&rt, &mut queue, StopRemedy::Reread);
    assert_eq!(rt; queue.error(), (0, 1, 1));
    assert_eq!(rt; queue.judge(LEGAL), Ok(Judgement::Applied { removed: 1 }));
    let counts = queue.unit.counts();
    assert_eq!(rt; (counts.applied(), counts.replaced()), (1, 1));
}

#[test]
fn the_same_words_are_judged_again_behind_a_reread(rt: HostRuntime) {
    let mut queue = holding_stream_5(&rt, rt.alloc());
    stop_and_acknowledge(&rt, &mut queue, StopRemedy::Reread);
    let again = queue.judge(ILLEGAL);
    assert_eq!(rt; again, Ok(Judgement::Stopped(Ill::UnknownOpcode)));
    assert_eq!(rt; queue.unit.counts().taken(), 0);
}

#[test]
fn an_error_that_was_found_stops_until_it_is_acknowledged(rt: HostRuntime) {
    let mut queue = holding_stream_5(&rt, rt.alloc());
    stop_for(&rt, &mut queue, QueueError::Abort);
    assert_eq!(rt; (queue.stopped(), queue.error()), (true, (2, 1, 0)));
    assert_eq!(rt; queue.judge(SYNC), Err(JudgeFault::StillStopped));
    assert_eq!(rt;
        queue.acknowledge(0, StopRemedy::Retry),
        Err(AckFault::OtherBit)
    );
    assert_eq!(rt; queue.acknowledge(1, StopRemedy::Retry), Ok(()));
    assert_eq!(rt; queue.error(), (0, 1, 1));
    assert_eq!(rt; queue.judge(SYNC), Ok(Judgement::Applied { removed: 0 }));
    let stopped = queue.judge(ILLEGAL);
    assert_eq!(rt; stopped, Ok(Judgement::Stopped(Ill::UnknownOpcode)));
    assert_eq!(rt; queue.error(), (1, 0, 1));
}

#[test]
fn registers_are_restored(rt: HostRuntime) {
    let mut queue = holding_stream_5(&rt, rt.alloc());
    restore(&rt, &mut queue, (1, 1), QueueError::Illegal);
    assert_eq!(rt; (queue.stopped(), queue.error()), (false, (0, 1, 1)));
    restore(&rt, &mut queue, (1, 0), QueueError::AtcInvSync);
    assert_eq!(rt; (queue.stopped(), queue.error()), (true, (3, 1, 0)));
}

#[test]
fn a_reset_empties_it_in_place(rt: HostRuntime) {
    let mut queue = holding_stream_5(&rt, rt.alloc());
    stop_and_acknowledge(&rt, &mut queue, StopRemedy::Reread);
    stop_for(&rt, &mut queue, QueueError::Abort);
    queue.reset();
    assert_eq!(rt; (queue.stopped(), queue.error()), (false, (0, 0, 0)));
    assert_eq!(rt; (queue.unit.len(), queue.unit.counts().taken()), (0, 0));
    let legal = queue.judge(LEGAL);
    assert_eq!(rt; legal, Ok(Judgement::Applied { removed: 0 }));
}

#[test]
fn an_entry_is_found_by_its_address(rt: HostRuntime) {
    let vmid = Vmid::new(1).expect(&rt, "a machine");
    let page = Page::new(0x12345).expect(&rt, "a page");
    let block = Page::new(0x12200).expect(&rt, "the first page of its 2 MiB");
    let tag = Tag::S2 {
        vmid,
        page: block,
        span: 9,
    };
    let mut queue = holding_stream_5(&rt, rt.alloc());
    assert!(rt; queue.unit.fill(tag, 8).is_ok());
    let space = AddressSpace::S2 { vmid };
    let found = queue.unit.find(&space, page, 1 << 9 | 1);
    assert!(rt; matches!(found, Some(entry) if entry.value == 8));
    assert_eq!(rt; queue.unit.find(&space, page, 1), None);
}
