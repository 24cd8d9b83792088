//! Flags in rings of 2, 4, 64 and 128 slots, also across the ring's end and up to a flag word's end.
use qindex::{Geometry, Index};
use ringcore::{flip_mask, new_flags, polarity, ready_run, shared_word};

fn index(log2: u32, number: u32) -> Option<Index> {
    Index::new(Geometry::new(log2)?, number)
}

fn flags(log2: u32, number: u32) -> Option<(bool, u32)> {
    let index = index(log2, number)?;
    Some((polarity(index), shared_word(index)))
}

fn mask(log2: u32, number: u32, count: u32) -> Option<u64> {
    let first = index(log2, number)?;
    if count == 0 || count > shared_word(first) {
        return None;
    }
    Some(flip_mask(first, count))
}

fn new_run(log2: u32, position: u64, count: u32) -> Option<u64> {
    if count == 0 || count > 64 || position > 1000 {
        return None;
    }
    Some(new_flags(Geometry::new(log2)?, position, count))
}

fn ready(log2: u32, number: u32, word: u64, limit: u32) -> Option<u32> {
    Some(ready_run(word, index(log2, number)?, limit))
}

#[test]
fn even_laps_are_told_by_ones(rt: HostRuntime) {
    let table = [
        (1, 1, (true, 2)),
        (1, 2, (false, 2)),
        (2, 3, (true, 4)),
        (2, 4, (false, 4)),
        (6, 63, (true, 64)),
        (6, 64, (false, 64)),
        (7, 0, (true, 64)),
        (7, 63, (true, 1)),
        (7, 64, (true, 64)),
        (7, 126, (true, 2)),
        (7, 128, (false, 64)),
        (7, 255, (false, 1)),
    ];
    for (log2, number, expected) in table {
        let found = flags(log2, number);
        assert!(rt; found == Some(expected), "{found:?} at {log2} {number}");
    }
}

#[test]
fn masks_are_the_flags_of_the_run(rt: HostRuntime) {
    let table = [
        (1, 0, 1, Some(0b01)),
        (1, 3, 2, Some(0b11)),
        (2, 1, 2, Some(0b0110)),
        // Places 3, 0 and 1.
        (2, 3, 3, Some(0b1011)),
        (2, 7, 3, Some(0b1011)),
        (2, 2, 4, Some(0b1111)),
        (2, 2, 5, None),
        (6, 0, 64, Some(u64::MAX)),
        (6, 5, 64, Some(u64::MAX)),
        // Places 62, 63, 0, 1 and 2.
        (6, 62, 5, Some(0xc000_0000_0000_0007)),
        // Places 126 and 127, bits 62 and 63 of the second flag word.
        (7, 126, 2, Some(0xc000_0000_0000_0000)),
        (7, 126, 3, None),
        (7, 64, 64, Some(u64::MAX)),
        (7, 63, 1, Some(0x8000_0000_0000_0000)),
        (7, 63, 2, None),
        (7, 1, 0, None),
    ];
    for (log2, number, count, expected) in table {
        let found = mask(log2, number, count);
        assert!(rt; found == expected, "{found:?} at {log2} {number} {count}");
    }
}

#[test]
fn runs_end_where_a_flag_is_not_flipped(rt: HostRuntime) {
    let table = [
        // Places 0 and 1 of the first lap.
        (2, 0, 0b0011, 64, 2),
        (2, 0, 0b0011, 1, 1),
        (2, 0, 0b0011, 0, 0),
        (2, 2, 0b0011, 64, 0),
        // Places 3 of the first lap, and 0 of the second, whose flag is 0 once it is flipped.
        (2, 3, 0b1110, 64, 2),
        (2, 3, 0b1111, 64, 1),
        (2, 3, 0b1110, 1, 1),
        // Places 3 of the second lap, and 0 and 1 of the third.
        (2, 7, 0b0011, 64, 3),
        (2, 7, 0b0011, 2, 2),
        // All four places, and then their own flags again, which say no more.
        (2, 2, 0b1100, 64, 4),
        (1, 0, 0b11, 64, 2),
        (1, 1, 0b10, 64, 2),
        (6, 0, u64::MAX, 64, 64),
        (6, 62, 0xffff_ffff_ffff_fff8, 64, 5),
        (6, 62, 0xffff_ffff_ffff_fff8, 4, 4),
        // Place 63 of 128 is the last of its flag word, and place 127 of its own.
        (7, 60, u64::MAX, 64, 4),
        (7, 63, u64::MAX, 64, 1),
        (7, 126, 0xffff_ffff_ffff_fff0, 64, 2),
        (7, 191, 0x7fff_ffff_ffff_ffff, 64, 1),
        (7, 192, 0xffff_ffff_ffff_ff00, 64, 8),
    ];
    for (log2, number, word, limit, expected) in table {
        let found = ready(log2, number, word, limit);
        assert!(rt;
            found == Some(expected),
            "{found:?} at {log2} {number} {word:x} {limit}"
        );
    }
}

#[test]
fn new_flags_turn_with_the_lap(rt: HostRuntime) {
    let table = [
        (2, 2, 4, 0b0011),
        (2, 4, 4, 0),
        (2, 6, 3, 0b100),
        (6, 0, 64, u64::MAX),
        (6, 64, 64, 0),
        (7, 127, 1, 1),
        (7, 128, 1, 0),
    ];
    for (log2, position, count, flags) in table {
        assert_eq!(rt; new_run(log2, position, count), Some(flags));
    }
}
