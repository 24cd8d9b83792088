//! Tables of commands, each with a tag that it covers and one that it doesn't.
use crate::caches_tests::calls::{caches_of, expect_filled};
use crate::caches_tests::notation::{command, entry_of, tag};
use caches::Tag;
use cmdcodec::Command;
use std::process::Abort;

/// Whether the command removes the first tag from caches that hold both, and not the second.
fn parts<R: AllocGlobal + Abort>(rt: &R, command: &Command, covered: Tag, spared: Tag) -> bool {
    let mut caches = caches_of(rt, 2);
    expect_filled(rt, &mut caches, entry_of(covered));
    expect_filled(rt, &mut caches, entry_of(spared));
    let removed = caches.apply(command);
    let left = (caches.lookup(&covered), caches.lookup(&spared));
    removed == 1 && left == (None, Some(entry_of(spared)))
}

/// The same for a line `COMMAND: COVERED | SPARED`.
fn is_parted<R: AllocGlobal + Abort>(rt: &R, line: &str) -> bool {
    let (words, tags) = line.split_once(": ").expect(rt, line);
    let (covered, spared) = tags.split_once(" | ").expect(rt, line);
    let command = command(rt.alloc(), words).expect(rt, line);
    let covered = tag(covered).expect(rt, line);
    let spared = tag(spared).expect(rt, line);
    parts(rt, &command, covered, spared)
}

/// Expects the command of each line to remove the first tag from caches that hold both, and not the second.
pub fn expect_parted<R: AllocGlobal + Abort>(rt: &R, table: &str) {
    for line in table.lines() {
        assert!(rt; is_parted(rt, line), "{line}");
    }
}
