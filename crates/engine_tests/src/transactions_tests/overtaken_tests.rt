//! Walks and transactions that commands overtake.
use caches::{Caches, Entry, Scope, Tag};
use cmdcodec::{Page, Raw, Sid, Vmid};
use engine::Verdict;
use ringcore::MOST_RESERVED;
use std::alloc::Global;
use std::process::Abort;
use transactions::{
    BeginFault, Ended, OutstandingCounts, TrackedUnit, TrackedVerdict, Transaction, WalkFault,
};

/// CMD_CFGI_STE of stream 5 with Leaf 1.
const STE: Raw = Raw {
    lo: 0x0000_0005_0000_0003,
    hi: 1,
};

/// CMD_TLBI_NSNH_ALL.
const ALL: Raw = Raw { lo: 0x30, hi: 0 };

/// CMD_PREFETCH_CONFIG of stream 5.
const PREFETCH: Raw = Raw {
    lo: 0x0000_0005_0000_0001,
    hi: 0,
};

/// CMD_SYNC without a signal.
const SYNC: Raw = Raw { lo: 0x46, hi: 0 };

/// CMD_SYNC with the reserved signal.
const ILLEGAL_SYNC: Raw = Raw { lo: 0x3046, hi: 0 };

fn numbered(rt: &impl Abort, alloc: Global, number: u8, room: u16) -> TrackedUnit {
    let caches = Caches::new(alloc, 8).expect(rt, "room for eight");
    TrackedUnit::new(alloc, number, caches, room).expect(rt, "memory")
}

fn tracked(rt: &impl Abort, alloc: Global, room: u16) -> TrackedUnit {
    numbered(rt, alloc, 0, room)
}

fn stream(rt: &impl Abort, number: u64) -> Tag {
    let sid = Sid::new(number).expect(rt, "a stream");
    Tag::Ste { sid }
}

fn global(rt: &impl Abort) -> Tag {
    let vmid = Vmid::new(1).expect(rt, "a machine");
    let page = Page::new(0x80).expect(rt, "a page");
    Tag::S1 {
        vmid,
        scope: Scope::Global,
        page,
        span: 0,
    }
}

/// Judges words if a unit may.
fn judged(rt: &impl Abort, unit: &mut TrackedUnit, raw: Raw) -> TrackedVerdict {
    assert!(rt; !unit.unit().stopped());
    assert!(rt; unit.unit().awaited().is_none());
    assert!(rt; unit.unit().counts().taken() < MOST_RESERVED);
    unit.judge(raw)
}

fn is_applied(verdict: &TrackedVerdict) -> bool {
    matches!(verdict, TrackedVerdict::Judged(Verdict::Applied { .. }))
}

fn begin(rt: &impl Abort, unit: &mut TrackedUnit, tag: &Tag) -> Transaction {
    match unit.begin(tag) {
        Ok((_, transaction)) => transaction,
        Err(_) => panic!(rt; "it doesn't begin"),
    }
}

fn end(rt: &impl Abort, unit: &mut TrackedUnit, transaction: Transaction) -> Ended {
    match unit.end(transaction) {
        Ok(ended) => ended,
        Err(_back) => panic!(rt; "it isn't outstanding here"),
    }
}

fn refusal(rt: &impl Abort, unit: &mut TrackedUnit, tag: &Tag) -> BeginFault {
    match unit.begin(tag) {
        Ok((_entry, _transaction)) => panic!(rt; "it begins"),
        Err(fault) => fault,
    }
}

#[test]
fn a_walk_that_a_command_overtakes(rt: HostRuntime) {
    let mut unit = tracked(&rt, rt.alloc(), 1);
    let walk = unit.begin_walk();
    assert!(rt; is_applied(&judged(&rt, &mut unit, STE)));
    let (five, six) = (stream(&rt, 5), stream(&rt, 6));
    assert_eq!(rt; unit.fill_walked(walk, five, 70), Err(WalkFault::Overtaken));
    assert_eq!(rt; unit.fill_walked(walk, six, 71), Ok(None));
    let (tag, value, born) = (six, 71, 0);
    assert_eq!(rt; unit.unit().lookup(&six), Some(Entry { tag, value, born }));
    assert!(rt; unit.unit().lookup(&five).is_none());
    let again = unit.begin_walk();
    assert_eq!(rt; unit.fill_walked(again, five, 72), Ok(None));
}

#[test]
fn a_walk_that_is_too_old(rt: HostRuntime) {
    let mut unit = tracked(&rt, rt.alloc(), 1);
    let walk = unit.begin_walk();
    for _ in 0..64 {
        assert!(rt; is_applied(&judged(&rt, &mut unit, STE)));
        assert!(rt; is_applied(&judged(&rt, &mut unit, PREFETCH)));
        assert!(rt; is_applied(&judged(&rt, &mut unit, SYNC)));
    }
    let (six, seven) = (stream(&rt, 6), stream(&rt, 7));
    assert_eq!(rt; unit.fill_walked(walk, six, 71), Ok(None));
    assert!(rt; is_applied(&judged(&rt, &mut unit, STE)));
    assert_eq!(rt; unit.fill_walked(walk, seven, 72), Err(WalkFault::TooOld));
}

#[test]
fn a_walk_of_another_unit(rt: HostRuntime) {
    let unit = numbered(&rt, rt.alloc(), 1, 1);
    let mut other = numbered(&rt, rt.alloc(), 255, 1);
    let (six, seven) = (stream(&rt, 6), stream(&rt, 7));
    let walk = unit.begin_walk();
    assert_eq!(rt; other.fill_walked(walk, six, 74), Err(WalkFault::OtherUnit));
    let own = other.begin_walk();
    assert_eq!(rt; other.fill_walked(own, seven, 73), Ok(None));
}

#[test]
fn a_walk_s_word_has_its_unit(rt: HostRuntime) {
    let unit = numbered(&rt, rt.alloc(), 1, 1);
    let word = unit.begin_walk().bits();
    assert_eq!(rt; word, 0x0100_0000_0000_0000);
}

#[test]
fn a_walk_of_another_unit_of_the_same_number(rt: HostRuntime) {
    let mut unit = tracked(&rt, rt.alloc(), 1);
    let mut other = tracked(&rt, rt.alloc(), 1);
    assert!(rt; is_applied(&judged(&rt, &mut unit, STE)));
    let (six, seven) = (stream(&rt, 6), stream(&rt, 7));
    let late = unit.begin_walk();
    assert_eq!(rt; other.fill_walked(late, six, 74), Err(WalkFault::OtherUnit));
    let early = other.begin_walk();
    assert_eq!(rt; unit.fill_walked(early, seven, 73), Ok(None));
}

#[test]
fn a_sync_that_waits_for_a_walk(rt: HostRuntime) {
    let mut unit = tracked(&rt, rt.alloc(), 1);
    let (walk, reads) = match unit.begin_outstanding_walk() {
        Some(both) => both,
        None => panic!(rt; "there is room for one"),
    };
    match unit.begin_outstanding_walk() {
        Some((_walk, _transaction)) => panic!(rt; "there is room for one"),
        None => {}
    }
    assert!(rt; is_applied(&judged(&rt, &mut unit, PREFETCH)));
    assert!(rt; is_applied(&judged(&rt, &mut unit, SYNC)));
    assert!(rt; is_applied(&judged(&rt, &mut unit, STE)));
    let transactions = 1;
    assert_eq!(rt;
        judged(&rt, &mut unit, SYNC),
        TrackedVerdict::Waiting { transactions }
    );
    let (five, six) = (stream(&rt, 5), stream(&rt, 6));
    assert_eq!(rt; unit.fill_walked(walk, five, 70), Err(WalkFault::Overtaken));
    assert_eq!(rt; unit.fill_walked(walk, six, 71), Ok(None));
    assert_eq!(rt; end(&rt, &mut unit, reads), Ended::LastCovered);
    assert!(rt; is_applied(&judged(&rt, &mut unit, SYNC)));
}

#[test]
fn a_sync_that_waits(rt: HostRuntime) {
    let mut unit = tracked(&rt, rt.alloc(), 3);
    let tag = global(&rt);
    let walk = unit.begin_walk();
    assert_eq!(rt; unit.fill_walked(walk, tag, 70), Ok(None));
    let first = begin(&rt, &mut unit, &tag);
    let second = begin(&rt, &mut unit, &tag);
    assert!(rt; is_applied(&judged(&rt, &mut unit, SYNC)));
    assert!(rt; is_applied(&judged(&rt, &mut unit, ALL)));
    assert_eq!(rt; refusal(&rt, &mut unit, &tag), BeginFault::NotHeld);
    let transactions = 2;
    assert_eq!(rt;
        judged(&rt, &mut unit, SYNC),
        TrackedVerdict::Waiting { transactions }
    );
    let walk = unit.begin_walk();
    let third = match unit.begin_walked(walk, &tag) {
        Ok(transaction) => transaction,
        Err(_) => panic!(rt; "nothing came meanwhile"),
    };
    match unit.begin_walked(walk, &tag) {
        Ok(_transaction) => panic!(rt; "there is room for three"),
        Err(fault) => assert_eq!(rt; fault, BeginFault::Full),
    }
    assert_eq!(rt;
        judged(&rt, &mut unit, SYNC),
        TrackedVerdict::Waiting { transactions }
    );
    assert_eq!(rt; end(&rt, &mut unit, first), Ended::Other);
    let transactions = 1;
    assert_eq!(rt;
        judged(&rt, &mut unit, SYNC),
        TrackedVerdict::Waiting { transactions }
    );
    // Another command is taken meanwhile, if it comes in place of the CMD_SYNC.
    assert!(rt; is_applied(&judged(&rt, &mut unit, PREFETCH)));
    assert_eq!(rt; end(&rt, &mut unit, second), Ended::LastCovered);
    let (outstanding, covered) = (1, 0);
    assert_eq!(rt;
        unit.outstanding(),
        OutstandingCounts {
            outstanding,
            covered
        }
    );
    assert!(rt; is_applied(&judged(&rt, &mut unit, SYNC)));
    assert_eq!(rt; end(&rt, &mut unit, third), Ended::Other);
    assert_eq!(rt; unit.unit().counts().syncs(), 2);
}

#[test]
fn a_token_of_another_unit(rt: HostRuntime) {
    let mut one = numbered(&rt, rt.alloc(), 1, 1);
    let mut other = numbered(&rt, rt.alloc(), 2, 1);
    let tag = stream(&rt, 5);
    assert!(rt; one.fill(tag, 70).is_ok());
    assert!(rt; other.fill(tag, 70).is_ok());
    let token = begin(&rt, &mut one, &tag);
    let theirs = begin(&rt, &mut other, &tag);
    let token = match other.end(token) {
        Ok(_) => panic!(rt; "it is another unit's"),
        Err(token) => token,
    };
    assert_eq!(rt; end(&rt, &mut other, theirs), Ended::Other);
    assert_eq!(rt; end(&rt, &mut one, token), Ended::Other);
    assert!(rt; is_applied(&judged(&rt, &mut one, STE)));
    let stopped = judged(&rt, &mut one, ILLEGAL_SYNC);
    assert!(rt; matches!(stopped, TrackedVerdict::Judged(Verdict::Stopped(_))));
}
