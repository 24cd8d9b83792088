//! Tests of entries, by which the map takes them out together: one for each test of tags, and one of their age.
ghost use Rattle.std.specs.Prelude.{◌≡◌, Bool};
ghost use Rattle.caches.specs.declared.tag.Entry.{Entry};

use crate::tag::Entry;
use crate::tag_test::TagTest;

/// A test of entries: it says which an eviction takes.
pub(crate) trait EntryTest {
    /// Which entries are taken.
    ghost evicted: { Self → Entry → Bool };

    /// Whether an entry is taken.
    fn evicts(&self, entry: &Entry) -> bool
        ensures { result ≡ evicted self.now entry.now };
}

impl<T: TagTest> EntryTest for T {
    ghost evicted = { λ test entry. T.passing test entry.tag };

    fn evicts(&self, entry: &Entry) -> bool {
        self.passes(&entry.tag)
    }
}

/// What was filled before this many commands were taken.
#[derive(Clone, Copy)]
pub(crate) struct Older(pub(crate) u64);

impl EntryTest for Older {
    ghost use Rattle.caches.specs.Held.{is_older};

    ghost evicted = { λ bound entry. is_older bound.0 entry };

    fn evicts(&self, entry: &Entry) -> bool {
        entry.born < self.0
    }
}
