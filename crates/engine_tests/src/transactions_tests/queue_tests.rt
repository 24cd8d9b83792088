//! A unit of a queue in memory, with walks and transactions beside it.
use caches::{Caches, Entry, Kind, Tag};
use cmdcodec::{Command, Ill, Raw, Sid};
use engine::{JudgeFault, Judgement, QueueError, StopRemedy};
use std::alloc::Global;
use std::process::Abort;
use transactions::{
    BeginFault, Ended, TrackedJudgement, TrackedQueueUnit, Transaction, Walk, WalkFault,
};

/// CMD_CFGI_STE of stream 5 with Leaf 1.
const STE: Raw = Raw {
    lo: 0x0000_0005_0000_0003,
    hi: 1,
};

/// CMD_SYNC without a signal.
const SYNC: Raw = Raw { lo: 0x46, hi: 0 };

/// An opcode that no command has.
const ILLEGAL: Raw = Raw { lo: 0xff, hi: 0 };

const WAITING: Result<TrackedJudgement, JudgeFault> = Ok(TrackedJudgement::Waiting {
    transactions: 1,
});

fn tracked(rt: &impl Abort, alloc: Global) -> TrackedQueueUnit {
    let caches = Caches::new(alloc, 8).expect(rt, "room for eight");
    TrackedQueueUnit::new(alloc, 0, caches, 2).expect(rt, "memory")
}

fn stream(rt: &impl Abort, number: u64) -> Tag {
    let sid = Sid::new(number).expect(rt, "a stream");
    Tag::Ste { sid }
}

/// A unit that holds what streams 5 and 6 read.
fn filled(rt: &impl Abort, alloc: Global) -> TrackedQueueUnit {
    let mut unit = tracked(rt, alloc);
    assert_eq!(rt; unit.fill(stream(rt, 5), 70), Ok(None));
    assert_eq!(rt; unit.fill(stream(rt, 6), 71), Ok(None));
    unit
}

/// Fills what a walk of a stream's entry read.
fn fill_walked(
    rt: &impl Abort,
    unit: &mut TrackedQueueUnit,
    walk: u64,
    number: u64,
) -> Result<Option<Entry>, WalkFault> {
    unit.fill_walked(Walk::from_bits(walk), stream(rt, number), 72)
}

fn begin(rt: &impl Abort, unit: &mut TrackedQueueUnit, tag: &Tag) -> Transaction {
    match unit.begin(tag) {
        Ok((_, transaction)) => transaction,
        Err(_) => panic!(rt; "it doesn't begin"),
    }
}

fn begin_walked(
    rt: &impl Abort,
    unit: &mut TrackedQueueUnit,
    walk: Walk,
    tag: &Tag,
) -> Transaction {
    match unit.begin_walked(walk, tag) {
        Ok(transaction) => transaction,
        Err(_) => panic!(rt; "it doesn't begin"),
    }
}

fn end(rt: &impl Abort, unit: &mut TrackedQueueUnit, transaction: Transaction) -> Ended {
    match unit.end(transaction) {
        Ok(ended) => ended,
        Err(_back) => panic!(rt; "it isn't outstanding here"),
    }
}

/// Ends nothing, by a token that isn't of an outstanding transaction.
fn ends_nothing(rt: &impl Abort, unit: &mut TrackedQueueUnit, bits: u64) {
    match unit.end(Transaction::from_bits(bits)) {
        Ok(_) => panic!(rt; "nothing is outstanding there"),
        Err(back) => assert_eq!(rt; back.into_bits(), bits),
    }
}

fn applied(rt: &impl Abort, unit: &mut TrackedQueueUnit, raw: Raw, removed: u32) {
    let judged = TrackedJudgement::Judged(Judgement::Applied { removed });
    assert_eq!(rt; unit.judge(raw), Ok(judged));
}

/// Stops a unit at `ILLEGAL`, and has the next words decide.
fn stop_and_reread(rt: &impl Abort, unit: &mut TrackedQueueUnit) {
    let stopped = TrackedJudgement::Judged(Judgement::Stopped(Ill::UnknownOpcode));
    assert_eq!(rt; unit.judge(ILLEGAL), Ok(stopped));
    assert_eq!(rt; unit.judge(SYNC), Err(JudgeFault::StillStopped));
    assert_eq!(rt; unit.acknowledge(1, StopRemedy::Reread), Ok(()));
}

/// Stops a unit that isn't stopped for an error that was found.
fn stop_for(rt: &impl Abort, unit: &mut TrackedQueueUnit, error: QueueError) {
    let stopped = unit.stopped();
    assert!(rt; !stopped);
    unit.stop(error);
}

/// Restores the registers of a unit that isn't stopped.
fn restore(rt: &impl Abort, unit: &mut TrackedQueueUnit, words: (u32, u32), error: QueueError) {
    let stopped = unit.stopped();
    assert!(rt; !stopped);
    unit.restore(words.0, words.1, error);
}

#[test]
fn a_sync_that_waits_beside_a_queue(rt: HostRuntime) {
    let mut unit = filled(&rt, rt.alloc());
    let transaction = begin(&rt, &mut unit, &stream(&rt, 5));
    applied(&rt, &mut unit, STE, 1);
    assert_eq!(rt; unit.judge(SYNC), WAITING);
    let walk = unit.begin_walk();
    let walked = begin_walked(&rt, &mut unit, walk, &stream(&rt, 5));
    let counts = unit.outstanding();
    assert_eq!(rt; (counts.outstanding, counts.covered), (2, 1));
    assert_eq!(rt; end(&rt, &mut unit, transaction), Ended::LastCovered);
    applied(&rt, &mut unit, SYNC, 0);
    assert_eq!(rt; end(&rt, &mut unit, walked), Ended::Other);
    assert_eq!(rt; unit.unit().counts().syncs(), 1);
}

#[test]
fn a_walk_of_a_queue_that_a_command_overtakes(rt: HostRuntime) {
    let mut unit = tracked(&rt, rt.alloc());
    let walk = unit.begin_walk().bits();
    assert_eq!(rt; walk, 1);
    applied(&rt, &mut unit, STE, 0);
    assert_eq!(rt;
        fill_walked(&rt, &mut unit, walk, 5),
        Err(WalkFault::Overtaken)
    );
    assert_eq!(rt; fill_walked(&rt, &mut unit, walk, 6), Ok(None));
    assert_eq!(rt;
        fill_walked(&rt, &mut unit, 0, 6),
        Err(WalkFault::OtherUnit)
    );
}

#[test]
fn a_sync_written_over_the_words_at_which_it_stopped(rt: HostRuntime) {
    let mut unit = filled(&rt, rt.alloc());
    let transaction = begin(&rt, &mut unit, &stream(&rt, 5));
    applied(&rt, &mut unit, STE, 1);
    stop_and_reread(&rt, &mut unit);
    assert_eq!(rt; unit.judge(SYNC), WAITING);
    assert_eq!(rt; unit.judge(SYNC), WAITING);
    assert_eq!(rt; unit.unit().counts().taken(), 1);
    assert_eq!(rt; end(&rt, &mut unit, transaction), Ended::LastCovered);
    applied(&rt, &mut unit, SYNC, 0);
    let counts = unit.unit().counts();
    assert_eq!(rt; (counts.taken(), counts.replaced()), (3, 1));
}

#[test]
fn a_walk_that_began_before_a_reset(rt: HostRuntime) {
    let mut unit = filled(&rt, rt.alloc());
    applied(&rt, &mut unit, STE, 1);
    let old = unit.begin_walk().bits();
    unit.reset();
    assert_eq!(rt; unit.unit().len(), 0);
    assert_eq!(rt;
        fill_walked(&rt, &mut unit, old, 5),
        Err(WalkFault::OtherUnit)
    );
    unit.reset();
    applied(&rt, &mut unit, SYNC, 0);
    assert_eq!(rt;
        fill_walked(&rt, &mut unit, old, 5),
        Err(WalkFault::OtherUnit)
    );
    let walk = unit.begin_walk().bits();
    assert_eq!(rt; fill_walked(&rt, &mut unit, walk, 5), Ok(None));
}

#[test]
fn a_walk_that_began_before_an_eviction(rt: HostRuntime) {
    let mut unit = filled(&rt, rt.alloc());
    let old = unit.begin_walk().bits();
    let command = Command::CfgiCdAll {
        sid: Sid::new(5).expect(&rt, "a stream"),
    };
    assert_eq!(rt; unit.invalidate(&command), 0);
    let refused = Err(WalkFault::OtherUnit);
    assert_eq!(rt; fill_walked(&rt, &mut unit, old, 5), refused);
    let walk = unit.begin_walk().bits();
    assert_eq!(rt; fill_walked(&rt, &mut unit, walk, 7), Ok(None));
    assert_eq!(rt; unit.evict_older(0), 0);
    let refused = Err(WalkFault::OtherUnit);
    assert_eq!(rt; fill_walked(&rt, &mut unit, walk, 8), refused);
}

#[test]
fn a_transaction_that_began_before_a_reset(rt: HostRuntime) {
    let mut unit = filled(&rt, rt.alloc());
    let five = stream(&rt, 5);
    let old = begin(&rt, &mut unit, &five).into_bits();
    assert_eq!(rt; old, 65_536);
    unit.reset();
    let counts = unit.outstanding();
    assert_eq!(rt; (counts.outstanding, counts.covered), (0, 0));
    assert_eq!(rt; unit.fill(five, 74), Ok(None));
    let new = begin(&rt, &mut unit, &five).into_bits();
    assert_eq!(rt; new, 131_072);
    ends_nothing(&rt, &mut unit, old);
    ends_nothing(&rt, &mut unit, 0);
    let ended = end(&rt, &mut unit, Transaction::from_bits(new));
    assert_eq!(rt; ended, Ended::Other);
}

#[test]
fn errors_of_a_tracked_queue(rt: HostRuntime) {
    let mut unit = tracked(&rt, rt.alloc());
    stop_for(&rt, &mut unit, QueueError::Abort);
    assert_eq!(rt; unit.error(), (2, 1, 0));
    assert_eq!(rt; unit.judge(SYNC), Err(JudgeFault::StillStopped));
    assert_eq!(rt; unit.acknowledge(1, StopRemedy::Retry), Ok(()));
    assert_eq!(rt; unit.error(), (0, 1, 1));
    restore(&rt, &mut unit, (0, 1), QueueError::Illegal);
    assert_eq!(rt; unit.error(), (1, 0, 1));
}

#[test]
fn evictions_beside_a_queue(rt: HostRuntime) {
    let mut unit = filled(&rt, rt.alloc());
    let five = stream(&rt, 5);
    let evicted = unit.evict(&five).is_some();
    assert!(rt; evicted);
    match unit.begin(&five) {
        Ok((_entry, _transaction)) => panic!(rt; "nothing is held"),
        Err(fault) => assert_eq!(rt; fault, BeginFault::NotHeld),
    }
    assert_eq!(rt; unit.evict_older(0), 0);
    assert_eq!(rt; unit.evict_all(&Kind::Ste), 1);
    applied(&rt, &mut unit, SYNC, 0);
    assert_eq!(rt; unit.fill(five, 75), Ok(None));
    assert_eq!(rt; unit.evict_older(2), 1);
}

/// Makes one, and returns how it went.
fn outcome(rt: &impl Abort, alloc: Global) -> &'static str {
    let caches = Caches::new(alloc, 8).expect(rt, "room for eight");
    match TrackedQueueUnit::new(alloc, 0, caches, 2) {
        Ok(_unit) => "whole",
        Err(_) => "refused",
    }
}

// Nothing but the unit and its caches allocates here, so that each of their allocations can fail.
#[test]
fn every_allocation_of_a_tracked_queue(rt: HostRuntime) {
    let outcome = outcome(&rt, rt.alloc());
    println!(rt; "every_allocation_of_a_tracked_queue: {outcome}").expect(&rt, "it is printed");
}
