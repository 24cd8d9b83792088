//! Two open reservations of different laps that hold one slot, in a ring of 4 slots with 3 senders.
use crate::ringcore_tests::machine::calls::expect_answers;
use ringcore::Core;

/// Sender 0 reserves positions 0 to 2, of which the first is taken; sender 1 reserves positions 3 and 4.
/// Both hold slot 0.
const BOTH_HOLD_SLOT_0: &str = "\
    look 0 = open 0 0\n\
    reserve 0 1 2 = reserved 0 1\n\
    write 0 0 0 = written\n\
    write 0 0 1 = written\n\
    flip 0 0 1 = flipped 0x1\n\
    test 0 64 = ready 1\n\
    read 0 0 = half 0x1000000000012\n\
    read 0 1 = half 0x1000\n\
    advance 1 = open 3 1\n\
    look 1 = open 3 1\n\
    reserve 1 3 = reserved 3 1";

/// A sender's own reservation decides first what it may do in the slot, and then the others' do.
const EACH_BY_ITS_OWN: &str = "\
    write 1 0 0 = written\n\
    write 1 0 1 = written\n\
    write 0 0 0 = F3\n\
    flip 0 0 1 = F3\n\
    write 2 0 0 = F1\n\
    flip 2 0 4 = F1\n\
    flip 1 0 1 = flipped 0x0\n\
    write 1 0 0 = F3\n\
    # Behind sender 0's end is position 3, which sender 1 holds.\n\
    flip 0 2 2 = F1\n\
    write 1 3 0 = written\n\
    write 1 3 1 = written\n\
    flip 1 3 1 = flipped 0x1\n\
    # Now sender 1 holds none, and sender 0 still holds slot 0.\n\
    flip 0 2 2 = F2\n\
    write 1 0 0 = F1\n\
    write 1 3 0 = F2\n\
    flip 2 0 3 = F1\n\
    flip 2 1 3 = F2";

/// What both wrote is read, over the ring's end.
const ALL_ARE_TAKEN: &str = "\
    write 0 1 0 = written\n\
    write 0 1 1 = written\n\
    write 0 2 0 = written\n\
    write 0 2 1 = written\n\
    test 1 64 = ready 0\n\
    flip 0 1 2 = flipped 0x3\n\
    test 1 64 = ready 4\n\
    read 1 0 = half 0x2000000000012\n\
    read 1 1 = half 0x2000\n\
    read 2 0 = half 0x100001046\n\
    read 2 1 = half 0x40000000\n\
    read 3 0 = half 0x3000000000012\n\
    read 3 1 = half 0x3000\n\
    read 0 0 = half 0x100001046\n\
    read 0 1 = half 0x40000004\n\
    advance 4 = open 5 5\n\
    ack 1 1 = acknowledged\n\
    ack 0 1 = acknowledged";

#[test]
fn one_slot_of_two_laps(rt: HostRuntime) {
    let mut core = Core::new(rt.alloc(), 2, 3).expect(&rt, "a machine");
    expect_answers(&rt, &mut core, BOTH_HOLD_SLOT_0);
    expect_answers(&rt, &mut core, EACH_BY_ITS_OWN);
    expect_answers(&rt, &mut core, ALL_ARE_TAKEN);
}

/// A reservation of the whole ring, at positions 1 to 4, whose first is taken, so that sender 1 reserves position 5, in
/// the same slot.
const A_WHOLE_RING: &str = "\
    look 0 = open 0 0\n\
    bare 0 1 = bare 0\n\
    write 0 0 0 = written\n\
    write 0 0 1 = written\n\
    flip 0 0 1 = flipped 0x1\n\
    test 0 1 = ready 1\n\
    read 0 0 = half 0x1000000000012\n\
    read 0 1 = half 0x1000\n\
    advance 1 = open 1 1\n\
    look 0 = open 1 1\n\
    bare 0 2 3 4 5 = bare 1\n\
    write 0 1 0 = written\n\
    write 0 1 1 = written\n\
    # Behind its end comes its own first slot, but position 5 is none's.\n\
    flip 0 0 2 = F2\n\
    flip 0 1 1 = flipped 0x1\n\
    test 1 1 = ready 1\n\
    read 1 0 = half 0x2000000000012\n\
    read 1 1 = half 0x2000\n\
    advance 1 = open 5 2\n\
    look 1 = open 5 2\n\
    bare 1 6 = bare 5\n\
    # Now it is sender 1's.\n\
    flip 0 0 2 = F1\n\
    write 1 1 0 = written\n\
    write 1 1 1 = written\n\
    flip 1 1 1 = flipped 0x0\n\
    flip 0 0 2 = F2\n\
    test 2 64 = ready 0";

#[test]
fn the_end_of_a_whole_ring(rt: HostRuntime) {
    let mut core = Core::new(rt.alloc(), 2, 2).expect(&rt, "a machine");
    expect_answers(&rt, &mut core, A_WHOLE_RING);
}
