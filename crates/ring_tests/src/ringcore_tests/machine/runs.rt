//! Runs of slots over the ends of rings and of flag words. `writes` and `reads` are of both halves of all slots in a
//! range.
use crate::ringcore_tests::machine::calls::expect_answers;
use ringcore::Core;

#[test]
fn two_slots(rt: HostRuntime) {
    let mut core = Core::new(rt.alloc(), 1, 1).expect(&rt, "a machine");
    expect_answers(
        &rt,
        &mut core,
        "look 0 = open 0 0\n\
         reserve 0 1 2 = F9\n\
         bare 0 1 = bare 0\n\
         write 0 0 0 = written\n\
         write 0 0 1 = written\n\
         flip 0 0 1 = flipped 0x1\n\
         test 0 64 = ready 1\n\
         read 0 0 = half 0x1000000000012\n\
         read 0 1 = half 0x1000\n\
         advance 1 = open 1 1\n\
         # Positions 1 and 2, of laps 0 and 1.\n\
         look 0 = open 1 1\n\
         reserve 0 2 = reserved 1 1\n\
         write 0 1 0 = written\n\
         write 0 1 1 = written\n\
         write 0 0 0 = written\n\
         write 0 0 1 = written\n\
         flip 0 0 2 = F2\n\
         flip 0 1 3 = F8\n\
         flip 0 1 2 = flipped 0x1\n\
         test 1 64 = ready 2\n\
         read 1 0 = half 0x2000000000012\n\
         read 1 1 = half 0x2000\n\
         read 0 0 = half 0x100001046\n\
         read 0 1 = half 0x40000000\n\
         advance 2 = open 3 3\n\
         ack 0 1 = acknowledged",
    );
}

/// Positions 0 and 1, then 2 by itself, and then 3 and 4, of laps 1 and 2.
const OVER_THE_SECOND_END: &str = "\
    look 0 = open 0 0\n\
    bare 0 1 2 = bare 0\n\
    write 0 0 0 = written\n\
    write 0 0 1 = written\n\
    write 0 1 0 = written\n\
    write 0 1 1 = written\n\
    flip 0 0 2 = flipped 0x3\n\
    test 0 64 = ready 2\n\
    read 0 0 = half 0x1000000000012\n\
    read 0 1 = half 0x1000\n\
    read 1 0 = half 0x2000000000012\n\
    read 1 1 = half 0x2000\n\
    advance 2 = open 2 2\n\
    # Position 2 of lap 1 by itself, and then 3 and 4, of laps 1 and 2.\n\
    look 0 = open 2 2\n\
    bare 0 3 = bare 2\n\
    write 0 0 0 = written\n\
    write 0 0 1 = written\n\
    test 0 64 = ready 0\n\
    flip 0 0 1 = flipped 0x0\n\
    test 0 64 = ready 1\n\
    read 0 0 = half 0x3000000000012\n\
    read 0 1 = half 0x3000\n\
    advance 1 = open 3 3\n\
    look 0 = open 3 3\n\
    bare 0 4 5 = bare 3\n\
    write 0 1 0 = written\n\
    write 0 1 1 = written\n\
    write 0 0 0 = written\n\
    write 0 0 1 = written\n\
    flip 0 1 2 = flipped 0x2\n\
    test 1 64 = ready 2\n\
    read 1 0 = half 0x4000000000012\n\
    read 1 1 = half 0x4000\n\
    read 0 0 = half 0x5000000000012\n\
    read 0 1 = half 0x5000\n\
    advance 2 = open 1 1";

#[test]
fn two_slots_over_the_second_end(rt: HostRuntime) {
    let mut core = Core::new(rt.alloc(), 1, 1).expect(&rt, "a machine");
    expect_answers(&rt, &mut core, OVER_THE_SECOND_END);
}

// All 64 flags stand in one word, so a run goes over the ring's end in one step.
#[test]
fn sixty_four_slots(rt: HostRuntime) {
    let mut core = Core::new(rt.alloc(), 6, 1).expect(&rt, "a machine");
    expect_answers(
        &rt,
        &mut core,
        "look 0 = open 0 0\n\
         bare-many 0 62 = bare 0\n\
         writes 0 62 = written\n\
         flip 0 0 62 = flipped 0x3fffffffffffffff\n\
         test 0 64 = ready 62\n\
         reads 0 62 = read\n\
         advance 62 = open 62 62\n\
         look 0 = open 62 62\n\
         reserve 0 1 2 3 = reserved 62 1\n\
         flip 0 62 4 = F4\n\
         writes 62 64 = written\n\
         writes 0 2 = written\n\
         # Positions 62 and 63 of lap 0, and 64 and 65 of lap 1.\n\
         flip 0 62 4 = flipped 0x3\n\
         test 62 64 = ready 4\n\
         read 62 1 = half 0x1000\n\
         read 62 0 = half 0x1000000000012\n\
         read 63 1 = half 0x2000\n\
         read 63 0 = half 0x2000000000012\n\
         read 0 1 = half 0x3000\n\
         read 0 0 = half 0x3000000000012\n\
         read 1 1 = half 0x40000000\n\
         read 1 0 = half 0x100001046\n\
         advance 4 = open 66 66\n\
         ack 0 1 = acknowledged",
    );
}

#[test]
fn a_ring_of_64_is_one_run(rt: HostRuntime) {
    let mut core = Core::new(rt.alloc(), 6, 1).expect(&rt, "a machine");
    expect_answers(
        &rt,
        &mut core,
        "look 0 = open 0 0\n\
         bare-many 0 2 = bare 0\n\
         writes 0 2 = written\n\
         flip 0 0 2 = flipped 0x3\n\
         test 0 64 = ready 2\n\
         reads 0 2 = read\n\
         advance 2 = open 2 2\n\
         # Positions 2 to 65: the longest body, and its sync.\n\
         look 0 = open 2 2\n\
         reserve-many 0 63 = reserved 2 1\n\
         writes 0 64 = written\n\
         flip 0 2 64 = flipped 0x3fffffffffffffff\n\
         test 2 64 = ready 64\n\
         read 1 0 = half 0x100001046\n\
         reads 0 64 = read\n\
         advance 64 = open 66 66",
    );
}

// Slots 0 to 63 and 64 to 127 have a flag word each.
#[test]
fn a_run_ends_with_its_flag_word(rt: HostRuntime) {
    let mut core = Core::new(rt.alloc(), 7, 1).expect(&rt, "a machine");
    expect_answers(
        &rt,
        &mut core,
        "look 0 = open 0 0\n\
         bare-many 0 60 = bare 0\n\
         writes 0 60 = written\n\
         flip 0 0 60 = flipped 0xfffffffffffffff\n\
         test 0 64 = ready 60\n\
         reads 0 60 = read\n\
         advance 60 = open 60 60\n\
         look 0 = open 60 60\n\
         reserve 0 1 2 3 4 5 = reserved 60 1\n\
         writes 60 66 = written\n\
         flip 0 60 6 = F8\n\
         flip 0 60 5 = F8\n\
         flip 0 64 2 = flipped 0x3\n\
         test 60 64 = ready 0\n\
         flip 0 60 4 = flipped 0xf\n\
         test 60 64 = ready 4\n\
         read 64 0 = F5\n\
         reads 60 64 = read\n\
         advance 5 = F6\n\
         advance 4 = open 66 64\n\
         test 64 64 = ready 2\n\
         read 64 1 = half 0x5000\n\
         read 64 0 = half 0x5000000000012\n\
         read 65 1 = half 0x40000000\n\
         read 65 0 = half 0x100001046\n\
         advance 2 = open 66 66",
    );
}

/// Positions 0 to 125, and then 126 to 129, of laps 0 and 1.
const OVER_THE_LAST_WORD: &str = "\
    look 0 = open 0 0\n\
    bare-many 0 63 = bare 0\n\
    writes 0 63 = written\n\
    flip 0 0 63 = flipped 0x7fffffffffffffff\n\
    test 0 64 = ready 63\n\
    reads 0 63 = read\n\
    advance 63 = open 63 63\n\
    look 0 = open 63 63\n\
    bare-many 0 1 = bare 63\n\
    writes 63 64 = written\n\
    flip 0 63 1 = flipped 0x1\n\
    test 63 64 = ready 1\n\
    reads 63 64 = read\n\
    advance 1 = open 64 64\n\
    look 0 = open 64 64\n\
    bare-many 0 62 = bare 64\n\
    writes 64 126 = written\n\
    flip 0 64 62 = flipped 0x3fffffffffffffff\n\
    test 64 64 = ready 62\n\
    reads 64 126 = read\n\
    advance 62 = open 126 126\n\
    look 0 = open 126 126\n\
    reserve 0 1 2 3 = reserved 126 1\n\
    writes 126 128 = written\n\
    writes 0 2 = written\n\
    flip 0 126 3 = F8\n\
    flip 0 127 2 = F8\n\
    flip 0 126 2 = flipped 0x3\n\
    flip 0 0 2 = flipped 0x0\n\
    test 126 64 = ready 2\n\
    read 0 0 = F5\n\
    reads 126 128 = read\n\
    advance 2 = open 130 128\n\
    test 0 64 = ready 2\n\
    read 0 1 = half 0x3000\n\
    read 0 0 = half 0x3000000000012\n\
    read 1 1 = half 0x40000000\n\
    read 1 0 = half 0x100001046\n\
    advance 2 = open 130 130";

#[test]
fn a_run_ends_with_the_last_flag_word(rt: HostRuntime) {
    let mut core = Core::new(rt.alloc(), 7, 1).expect(&rt, "a machine");
    expect_answers(&rt, &mut core, OVER_THE_LAST_WORD);
}
