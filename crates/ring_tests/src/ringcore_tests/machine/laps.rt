//! Four senders on four laps of a ring of 4 slots. Indexes are positions modulo 8, and flags are set on laps 0
//! and 2.
use crate::ringcore_tests::machine::calls::expect_answers;
use ringcore::Core;

/// Sender 0 reserves positions 0 to 2, and sender 1 position 3, which is ready first.
const FIRST_LAP: &str = "\
    look c = open 0 0\n\
    look 0 = open 0 0\n\
    look 1 = open 0 0\n\
    reserve 0 1 2 = reserved 0 1\n\
    bare 1 3 = lost 3 0\n\
    look 1 = open 3 0\n\
    bare 1 3 = bare 3\n\
    write 1 3 1 = written\n\
    write 1 3 0 = written\n\
    flip 1 3 1 = flipped 0x1\n\
    test 0 64 = ready 0\n\
    write 0 0 0 = written\n\
    write 0 0 1 = written\n\
    write 0 1 1 = written\n\
    write 0 1 0 = written\n\
    flip 0 0 2 = flipped 0x3\n\
    test 0 64 = ready 2\n\
    read 0 0 = half 0x1000000000012\n\
    read 0 1 = half 0x1000\n\
    read 1 1 = half 0x2000\n\
    read 1 0 = half 0x2000000000012\n\
    advance 2 = open 4 2";

/// Sender 3 reserves positions 4 and 5, whose slots sender 0's open reservation holds a lap earlier.
const SECOND_LAP: &str = "\
    look 2 = open 4 2\n\
    look 3 = open 4 2\n\
    bare 3 7 8 = bare 4\n\
    reserve 2 9 = lost 6 2\n\
    look 2 = open 6 2\n\
    reserve 2 9 = F9\n\
    write 3 0 0 = written\n\
    write 3 0 1 = written\n\
    write 0 0 0 = F3\n\
    flip 3 0 1 = flipped 0x0\n\
    test 2 64 = ready 0\n\
    write 0 2 0 = written\n\
    write 0 2 1 = written\n\
    write 3 1 0 = written\n\
    write 3 1 1 = written\n\
    flip 0 2 1 = flipped 0x1\n\
    # Positions 2 to 4.\n\
    test 2 64 = ready 3\n\
    read 2 0 = half 0x100001046\n\
    read 2 1 = half 0x40000000\n\
    read 3 0 = half 0x3000000000012\n\
    read 3 1 = half 0x3000\n\
    advance 2 = open 6 4\n\
    ack 0 1 = acknowledged\n\
    ask 0 = done 1\n\
    ask 1 = done 0\n\
    test 0 1 = ready 1\n\
    flip 3 1 1 = flipped 0x0\n\
    test 0 64 = ready 2\n\
    read 0 0 = half 0x7000000000012\n\
    read 0 1 = half 0x7000\n\
    read 1 0 = half 0x8000000000012\n\
    read 1 1 = half 0x8000\n\
    advance 2 = open 6 6\n\
    test 2 64 = ready 0";

/// Sender 2 reserves positions 6 to 8, over the ring's end, and sender 0 position 9: all four are taken at once.
const THIRD_LAP: &str = "\
    # By its last look there is no room.\n\
    reserve 2 9 10 = F9\n\
    look 2 = open 6 6\n\
    reserve 2 9 10 = reserved 6 1\n\
    look 0 = open 1 6\n\
    reserve 0 11 = F9\n\
    bare 0 11 = bare 1\n\
    write 2 2 0 = written\n\
    write 2 2 1 = written\n\
    write 2 3 0 = written\n\
    write 2 3 1 = written\n\
    write 2 0 0 = written\n\
    write 2 0 1 = written\n\
    # Positions 6 and 7 of the odd lap, and 8 of the even one.\n\
    flip 2 2 3 = flipped 0x4\n\
    write 0 1 1 = written\n\
    write 0 1 0 = written\n\
    flip 0 1 1 = flipped 0x1\n\
    test 2 2 = ready 2\n\
    test 2 64 = ready 4\n\
    read 2 0 = half 0x9000000000012\n\
    read 2 1 = half 0x9000\n\
    read 3 0 = half 0xa000000000012\n\
    read 3 1 = half 0xa000\n\
    read 0 0 = half 0x100001046\n\
    read 0 1 = half 0x40000008\n\
    read 1 0 = half 0xb000000000012\n\
    read 1 1 = half 0xb000\n\
    advance 4 = open 2 2\n\
    ack 2 1 = acknowledged\n\
    ask 2 = done 1";

/// Sender 1 reserves positions 10 and 11, and sender 3 positions 12 and 13: then sender 2 closes the ring.
const FOURTH_LAP: &str = "\
    look 1 = open 2 2\n\
    reserve 1 12 = reserved 2 1\n\
    look 0 = open 4 2\n\
    look 3 = open 4 2\n\
    reserve 3 13 = reserved 4 1\n\
    close 2 = closed 6 2\n\
    bare 0 14 = lost 6 2 closed\n\
    look 0 = closed 6 2\n\
    bare 0 14 = F9\n\
    write 3 0 0 = written\n\
    write 3 0 1 = written\n\
    write 3 1 0 = written\n\
    write 3 1 1 = written\n\
    flip 3 0 2 = flipped 0x0\n\
    test 2 64 = ready 0\n\
    write 1 2 0 = written\n\
    write 1 2 1 = written\n\
    write 1 3 0 = written\n\
    write 1 3 1 = written\n\
    flip 1 2 2 = flipped 0x3\n\
    test 2 64 = ready 4\n\
    test 2 3 = ready 3\n\
    read 2 0 = half 0xc000000000012\n\
    read 2 1 = half 0xc000\n\
    read 3 0 = half 0x100001046\n\
    read 3 1 = half 0x40000004\n\
    read 0 0 = half 0xd000000000012\n\
    read 0 1 = half 0xd000\n\
    read 1 0 = F5\n\
    advance 3 = closed 6 5\n\
    ack 1 1 = acknowledged\n\
    ack 3 1 = F7\n\
    test 1 64 = ready 1\n\
    read 1 0 = half 0x100001046\n\
    read 1 1 = half 0x4000000c\n\
    advance 1 = closed 6 6\n\
    ack 3 1 = acknowledged\n\
    ask 1 = done 1\n\
    ask 3 = done 1\n\
    test 2 64 = ready 0\n\
    look c = closed 6 6";

#[test]
fn four_senders_on_four_laps(rt: HostRuntime) {
    let mut core = Core::new(rt.alloc(), 2, 4).expect(&rt, "a machine");
    expect_answers(&rt, &mut core, FIRST_LAP);
    expect_answers(&rt, &mut core, SECOND_LAP);
    expect_answers(&rt, &mut core, THIRD_LAP);
    expect_answers(&rt, &mut core, FOURTH_LAP);
}
