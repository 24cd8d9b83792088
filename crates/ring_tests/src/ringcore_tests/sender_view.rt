//! What sender 7 knows while it sends one batch, in a ring of 4 slots.
use cmdcodec::Raw;
use qindex::{Control, Geometry};
use ringcore::{Half, SenderView, StepFault};
use std::process::Abort;

/// A CMD_CFGI_ALL.
const CFGI_ALL: Raw = Raw { lo: 0x4, hi: 31 };

/// Returns the two words of a command of the view's reservation.
fn words_at(view: &SenderView, offset: u32) -> Option<(u64, u64)> {
    if offset >= view.len() {
        return None;
    }
    let raw = view.command(offset);
    Some((raw.lo, raw.hi))
}

/// Returns the slots that the view's reservation holds.
fn slots(view: &SenderView, geometry: Geometry) -> Option<[Option<u32>; 4]> {
    if geometry.size() < 4 {
        return None;
    }
    Some([
        view.offset_of(geometry, 0),
        view.offset_of(geometry, 1),
        view.offset_of(geometry, 2),
        view.offset_of(geometry, 3),
    ])
}

/// Expects these words as a command of the view's reservation.
fn expect_words(rt: &impl Abort, view: &SenderView, offset: u32, wanted: Option<(u64, u64)>) {
    assert_eq!(rt; words_at(view, offset), wanted);
}

/// Expects the view's reservation to hold the slots at these offsets.
fn expect_slots(rt: &impl Abort, view: &SenderView, geometry: Geometry, wanted: [Option<u32>; 4]) {
    assert_eq!(rt; slots(view, geometry), Some(wanted));
}

/// Expects it to have looked at this since its last exchange, or not to have.
fn expect_looked(rt: &impl Abort, view: &SenderView, found: &Control, wanted: bool) {
    assert_eq!(rt; view.expects(found), wanted);
}

/// What it knows once it looked and reserved two slots of four from position 3 on, which go over the ring's end.
fn with_two_reserved(rt: &impl Abort, found: &Control) -> SenderView {
    let mut view = SenderView::new();
    expect_looked(rt, &view, found, false);
    view.looks(found);
    expect_looked(rt, &view, found, true);
    assert_eq!(rt; view.wins(7, &[CFGI_ALL], true, 3), Some(1));
    expect_looked(rt, &view, found, false);
    assert_eq!(rt; (view.start(), view.len()), (3, 2));
    view
}

/// Whether it holds positions 2 to 5.
fn held(view: &SenderView) -> (bool, bool, bool, bool) {
    (view.holds(2), view.holds(3), view.holds(4), view.holds(5))
}

/// Expects the command and its CMD_SYNC, and their slots.
fn has_both(rt: &impl Abort, view: &SenderView, geometry: Geometry) {
    expect_words(rt, view, 0, Some((0x4, 31)));
    expect_words(rt, view, 1, Some((0x1_0000_1046, 0x4000_001C)));
    expect_words(rt, view, 2, None);
    expect_slots(rt, view, geometry, [Some(1), None, None, Some(0)]);
    assert_eq!(rt; held(view), (false, true, true, false));
}

/// Writes the four halves.
fn writes_all(rt: &impl Abort, view: &mut SenderView) {
    view.writes(0, Half::Lo);
    assert!(rt; !view.all_written(0, 1));
    view.writes(0, Half::Hi);
    assert!(rt; view.all_written(0, 1));
    assert!(rt; !view.all_written(0, 2));
    view.writes(1, Half::Hi);
    view.writes(1, Half::Lo);
    assert!(rt; view.all_written(0, 2));
}

/// Flips one slot, and then the other.
fn flips_both(rt: &impl Abort, view: &mut SenderView) {
    assert!(rt; !view.any_flipped(0, 2));
    view.flips(0, 1);
    assert!(rt; view.any_flipped(0, 2));
    assert!(rt; !view.any_flipped(1, 1));
    assert!(rt; view.is_open());
    view.flips(1, 1);
    assert!(rt; !view.is_open());
}

#[test]
fn one_batch(rt: HostRuntime) {
    let geometry = Geometry::new(2).expect(&rt, "4 slots");
    let found = Control::unpack(geometry, 0x3_0000_0003).expect(&rt, "a control word");
    let mut view = with_two_reserved(&rt, &found);
    has_both(&rt, &view, geometry);
    writes_all(&rt, &mut view);
    flips_both(&rt, &mut view);
    expect_slots(&rt, &view, geometry, [None; 4]);
    assert!(rt; !view.holds(3));
    view.looks(&found);
    view.loses();
    expect_looked(&rt, &view, &found, false);
}

/// Returns why a sender's first reserve is refused that found this control word.
fn refusal(word: u64, body: &[Raw], closes: bool) -> Option<StepFault> {
    let geometry = Geometry::new(2)?;
    let found = Control::unpack(geometry, word)?;
    let mut view = SenderView::new();
    view.looks(&found);
    view.reserve_fault(geometry, body, closes)
}

/// Expects such a reserve to be refused for this fault, or not to be refused.
fn expect_refusal(
    rt: &impl Abort,
    word: u64,
    body: &[Raw],
    closes: bool,
    wanted: Option<StepFault>,
) {
    assert_eq!(rt; refusal(word, body, closes), wanted);
}

#[test]
fn a_reserve_needs_room(rt: HostRuntime) {
    let both = [CFGI_ALL, CFGI_ALL];
    let sync = Raw { lo: 0x46, hi: 0 };
    // Two of four slots are taken.
    expect_refusal(&rt, 0x3_0000_0005, &[CFGI_ALL], true, None);
    expect_refusal(&rt, 0x3_0000_0005, &both, false, None);
    expect_refusal(&rt, 0x3_0000_0005, &both, true, Some(StepFault::NoRoom));
    // The closed bit is set.
    expect_refusal(
        &rt,
        0x3_8000_0003,
        &[CFGI_ALL],
        true,
        Some(StepFault::NoRoom),
    );
    expect_refusal(&rt, 0x3_0000_0003, &[], true, Some(StepFault::BadBody));
    expect_refusal(
        &rt,
        0x3_0000_0003,
        &[CFGI_ALL, sync],
        true,
        Some(StepFault::BadBody),
    );
}
