//! The steps of a batch, one operation after another, in a ring of 4 slots with 2 senders.
ghost use Rattle.std.specs.Prelude.{◌≡◌};

use qindex::{Control, Geometry, Index};
use ringcore::{Half, RingWords, shared_word};
use std::alloc::Global;
use std::process::Abort;

/// Expects the control word to say prod, cons and closed.
fn expect_said(rt: &impl Abort, words: &RingWords, wanted: (u32, u32, bool)) {
    let control = words.control().expect(rt, "a control word");
    let said = (control.prod.get(), control.cons.get(), control.closed);
    assert_eq!(rt; said, wanted);
}

fn index(rt: &impl Abort, words: &RingWords, number: u32) -> Index
    ensures { result.geometry ≡ words.now.geometry }
{
    Index::new(words.geometry(), number).expect(rt, "an index")
}

/// The control with this prod, and cons 0.
fn open_at(rt: &impl Abort, words: &RingWords, prod: u32) -> Control {
    Control {
        prod: index(rt, words, prod),
        cons: index(rt, words, 0),
        closed: false,
    }
}

/// Exchanges the control word from prod, cons 0 to another prod, and expects that to be won or lost.
fn expect_exchange(rt: &impl Abort, words: &mut RingWords, from: u32, to: u32, is_won: bool) {
    let (before, after) = (open_at(rt, words, from), open_at(rt, words, to));
    assert_eq!(rt; words.exchange(&before, &after), is_won);
}

/// Writes both halves at an index, and expects to read them again.
fn expect_written(rt: &impl Abort, words: &mut RingWords, number: u32, lo: u64, hi: u64) {
    let index = index(rt, words, number);
    words.write(index, Half::Lo, lo);
    words.write(index, Half::Hi, hi);
    let read = (words.read(index, Half::Lo), words.read(index, Half::Hi));
    assert_eq!(rt; read, (lo, hi));
}

/// Flips a run that begins at an index.
fn flip(rt: &impl Abort, words: &mut RingWords, number: u32, count: u32) {
    let first = index(rt, words, number);
    assert!(rt; 1 <= count && count <= shared_word(first));
    words.flip(first, count);
}

/// Expects `wanted` slots to be ready from an index on.
fn expect_ready(rt: &impl Abort, words: &RingWords, number: u32, limit: u32, wanted: u32) {
    let head = index(rt, words, number);
    assert_eq!(rt; words.ready(head, limit), wanted);
}

/// Turns cons from one index to another.
fn advance(rt: &impl Abort, words: &mut RingWords, from: u32, to: u32) {
    let (from, to) = (index(rt, words, from), index(rt, words, to));
    words.advance(from, to);
}

fn ring_of_4(alloc: Global) -> Option<RingWords> {
    RingWords::new(alloc, Geometry::new(2)?, 2).ok()
}

/// Reserves three slots, which needs an exchange for the word that is there.
fn reserves_three(rt: &impl Abort, words: &mut RingWords) {
    expect_said(rt, words, (0, 0, false));
    expect_exchange(rt, words, 1, 3, false);
    expect_exchange(rt, words, 0, 3, true);
    expect_said(rt, words, (3, 0, false));
}

/// Writes a command, and flips the run of three.
fn writes_and_flips(rt: &impl Abort, words: &mut RingWords) {
    expect_written(rt, words, 2, 0x100001046, 0x40000000);
    expect_ready(rt, words, 0, 64, 0);
    flip(rt, words, 0, 3);
    expect_ready(rt, words, 0, 64, 3);
    expect_ready(rt, words, 0, 2, 2);
}

/// Advances past the three. The next run goes over the ring's end, where the flags turn back.
fn goes_over_the_end(rt: &impl Abort, words: &mut RingWords) {
    advance(rt, words, 0, 3);
    expect_said(rt, words, (3, 3, false));
    expect_ready(rt, words, 3, 64, 0);
    flip(rt, words, 3, 3);
    expect_ready(rt, words, 3, 64, 3);
}

#[test]
fn one_operation_after_another(rt: HostRuntime) {
    let mut words = ring_of_4(rt.alloc()).expect(&rt, "a ring of 4 slots");
    reserves_three(&rt, &mut words);
    writes_and_flips(&rt, &mut words);
    goes_over_the_end(&rt, &mut words);
    words.close();
    expect_said(&rt, &words, (3, 3, true));
}

/// Returns what a sender's cell holds after this number was stored there.
fn told(alloc: Global, sender: u32, number: u32) -> Option<(u64, u64)> {
    let mut words = RingWords::new(alloc, Geometry::new(2)?, 2).ok()?;
    if sender >= 2 {
        return None;
    }
    words.acknowledge(sender, number);
    Some((words.acknowledged(0), words.acknowledged(1)))
}

#[test]
fn each_sender_has_a_cell(rt: HostRuntime) {
    assert_eq!(rt; told(rt.alloc(), 0, 1), Some((1, 0)));
    assert_eq!(rt;
        told(rt.alloc(), 1, 4_294_967_295),
        Some((0, 4_294_967_295))
    );
}
