//! Words of rings of 2, 4, 64 and 128 slots.
use qindex::{Geometry, Index};
use ringcore::{Half, cell, control_word, data_word, flag_word, words};

fn words_of(log2: u32, number: u32) -> Option<(usize, usize, usize)> {
    let index = Index::new(Geometry::new(log2)?, number)?;
    Some((
        flag_word(index),
        data_word(index, Half::Lo),
        data_word(index, Half::Hi),
    ))
}

fn cells(log2: u32, senders: u32) -> Option<(usize, usize, usize)> {
    let geometry = Geometry::new(log2)?;
    if senders > 256 {
        return None;
    }
    Some((
        cell(geometry, 0),
        cell(geometry, senders),
        words(geometry, senders),
    ))
}

#[test]
fn each_lap_has_the_same_words(rt: HostRuntime) {
    assert_eq!(rt; control_word(), 0);
    let table = [
        // One flag word: words 8, 9 to 15 unused, and data words from 16 on.
        (1, 0, (8, 16, 17)),
        (1, 1, (8, 18, 19)),
        (1, 2, (8, 16, 17)),
        (2, 3, (8, 22, 23)),
        (2, 7, (8, 22, 23)),
        (6, 63, (8, 142, 143)),
        (6, 64, (8, 16, 17)),
        // Two flag words, and data words from 17 on.
        (7, 0, (8, 17, 18)),
        (7, 63, (8, 143, 144)),
        (7, 64, (9, 145, 146)),
        (7, 127, (9, 271, 272)),
        (7, 128, (8, 17, 18)),
    ];
    for (log2, number, expected) in table {
        let found = words_of(log2, number);
        assert!(rt; found == Some(expected), "{found:?} at {log2} {number}");
    }
}

#[test]
fn each_sender_has_a_cell(rt: HostRuntime) {
    let table = [
        // Data words 16 to 19, 20 to 26 unused.
        (1, 1, (27, 35, 35)),
        (2, 2, (31, 47, 47)),
        (6, 4, (151, 183, 183)),
        // Data words 17 to 272, 273 to 279 unused.
        (7, 256, (280, 2_328, 2_328)),
    ];
    for (log2, senders, expected) in table {
        let found = cells(log2, senders);
        assert!(rt; found == Some(expected), "{found:?} at {log2} {senders}");
    }
}
