//! Takes all entries out of the map that pass a test.
ghost use Rattle.std.specs.BTreeMap as tree;
ghost use Rattle.caches.specs.Sweep.{IsNextPassing, IsRidOf};

use crate::entry_test::EntryTest;
use crate::held_entry::HeldEntry;
use crate::indexed_map::IndexedMap;
use crate::rank::Rank;
use std::collections::BTreeMap;
use std::ops::Bound;

/// Finds the first entry with a key from `from` on that passes a test.
///
/// Not inlined: who removes what it finds needs no stack for the walk.
#[inline(never)]
fn next_passing<T: EntryTest>(
    map: &BTreeMap<Rank, HeldEntry>,
    from: Bound<Rank>,
    test: &T,
) -> Option<Rank>
    ensures { IsNextPassing ⟦<Rank as Ord>⟧.cmp (T.evicted test.now) map.now from result }
{
    let mut entries = map.range((from, Bound::Unbounded));
    while let Some((key, entry)) = entries.next() {
        if test.evicts(entry.get()) {
            return Some(*key);
        }
    }
    None
}

/// Removes the entries that pass a test, in one walk along the map. Takes no memory.
pub(crate) fn remove_passing<T: EntryTest>(map: &mut IndexedMap, test: &T)
    ensures { IsRidOf ⟦<Rank as Ord>⟧.cmp (T.evicted test.now) map.old.ordered map.new.ordered }
{
    let mut from = Bound::Unbounded;
    while let Some(key) = next_passing(&map.ordered, from, test) {
        map.remove(key);
        from = Bound::Excluded(key);
    }
}
