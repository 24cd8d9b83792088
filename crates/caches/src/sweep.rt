//! Removes what a command covers in a range of keys.
ghost use Rattle.std.specs.Prelude.{◌≡◌, cond, IfSome, None, option_map, true};
ghost use Rattle.std.specs.BTreeMap as tree;
ghost use Rattle.caches.specs.declared.key.Key.{Key};
ghost use Rattle.caches.specs.Keys.{covers_key};
ghost use Rattle.caches.specs.Sweep.{IsNext, IsKeeping, is_swept};

use crate::covering::covers;
use crate::held_entry::HeldEntry;
use crate::indexed_map::IndexedMap;
use crate::rank::Rank;
use cmdcodec::Command;
use std::collections::BTreeMap;
use std::ops::Bound;

/// A covered entry of a range.
#[derive(Clone, Copy)]
struct Covered {
    key: Rank,
    /// Whether it is the last entry of the range.
    is_last: bool,
}

/// Finds the first covered entry with a key from `from` on and below `end`, by a walk along the map.
///
/// Not inlined: who removes what it finds needs no stack for the walk.
#[inline(never)]
fn next_covered(
    map: &BTreeMap<Rank, HeldEntry>,
    from: Rank,
    end: Rank,
    command: &Command,
) -> Option<Covered>
    requires keeping { IsKeeping ⟦<Rank as Ord>⟧.cmp map.now }
    ensures next { IsNext ⟦<Rank as Ord>⟧.cmp (covers_key command.now) map.now
        (Bound.Included from) (Bound.Excluded end) (option_map (λ found. found.key) result) }
    ensures last { IfSome result (λ found. found.is_last ≡ true
        → IsNext ⟦<Rank as Ord>⟧.cmp (covers_key command.now) map.now (Bound.Excluded found.key)
        (Bound.Excluded end) None) }
{
    // The loop tests for the end: a range with an end would search for that too.
    let mut entries = map.range(from..);
    while let Some((key, entry)) = entries.next() {
        if key.cmp(&end).is_ge() {
            return None;
        }
        if covers(command, &entry.get().tag) {
            let is_last = match entries.next() {
                Some((next, _)) => next.cmp(&end).is_ge(),
                None => true,
            };
            return Some(Covered { key: *key, is_last });
        }
    }
    None
}

/// Removes the covered entries with keys from `first` up to, but not including, `end`. Takes no memory.
///
/// After each it searches the rest of the range, unless that is empty.
///
/// Not inlined: the other walks that `sweep_covered` calls need no stack for this one.
#[inline(never)]
pub(crate) fn remove_covered(map: &mut IndexedMap, first: Rank, end: Rank, command: &Command)
    requires keeping { IsKeeping ⟦<Rank as Ord>⟧.cmp map.old.ordered }
    ensures after { (q : Key)
        → tree.get ⟦<Rank as Ord>⟧.cmp map.new.ordered q
        ≡ cond (is_swept ⟦<Rank as Ord>⟧.cmp (covers_key command.now) (Bound.Included first)
        (Bound.Excluded end) q) None (tree.get ⟦<Rank as Ord>⟧.cmp map.old.ordered q) }
{
    let mut from = first;
    while let Some(covered) = next_covered(&map.ordered, from, end, command) {
        map.remove(covered.key);
        if covered.is_last {
            return;
        }
        from = covered.key;
    }
}
