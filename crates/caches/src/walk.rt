//! Removes the blocks of an owner that a command covers, in walks back along the map.
ghost use Rattle.std.specs.Prelude.{◌≡◌, ◌<◌, ◌≤◌, ◌+◌, ◌^◌, Some, None, true};
ghost use Rattle.std.specs.BTreeMap as tree;
ghost use Rattle.caches.specs.declared.key.Key.{Key};
ghost use Rattle.caches.specs.Keys.{covers_key, owner_of, page_of, span_of};
ghost use Rattle.caches.specs.Sweep.{IsKeeping, IsPruned};
ghost use Rattle.caches.specs.Walks.{IsWalked};

use crate::covering::covers;
use crate::held_entry::HeldEntry;
use crate::indexed_map::IndexedMap;
use crate::key::Owner;
use crate::rank::Rank;
use cmdcodec::Command;
use std::collections::BTreeMap;

/// What a walk back finds among an owner's blocks before its end.
#[derive(Clone, Copy)]
enum Walked {
    /// The last covered block.
    Covered(Rank),
    /// No covered block begins at this page or after it.
    NoneFrom(u64),
}

/// Finds the last covered block of `owner` with a key below `end`, by a walk back along the map. The command must cover
/// only blocks of `owner` that end past page `first`.
///
/// It stops at a block that lies wholly before that page: few others further down reach it, and `sweep_before` knows
/// where they begin.
///
/// Not inlined: who removes what it finds needs no stack for the walk.
#[inline(never)]
fn last_covered(
    map: &BTreeMap<Rank, HeldEntry>,
    owner: Owner,
    first: u64,
    end: Rank,
    command: &Command,
) -> Walked
    requires keeping { IsKeeping ⟦<Rank as Ord>⟧.cmp map.now }
    requires own { owner_of end ≡ Some owner }
    requires reach { (q : Key) → covers_key command.now q ≡ true
        → (owner_of q ≡ Some owner) × (first < page_of q + 2 ^ span_of q) }
    ensures { IsWalked ⟦<Rank as Ord>⟧.cmp (covers_key command.now) map.now end owner first result }
{
    let least = owner.least(0, 0);
    let mut entries = map.range(..end);
    while let Some((key, entry)) = entries.next_back() {
        if key.cmp(&least).is_lt() {
            return Walked::NoneFrom(0);
        }
        if key.block_end() <= first {
            return Walked::NoneFrom(key.page());
        }
        if covers(command, &entry.get().tag) {
            return Walked::Covered(*key);
        }
    }
    Walked::NoneFrom(0)
}

/// Removes the covered blocks of `owner` that begin before page `end`, as far down as a block that lies wholly before
/// page `first`. The command must cover only blocks of `owner` that end past page `first`. Takes no memory.
///
/// Returns a page, at most `first`, and below `end` unless that is 0: no covered block that begins from it up to `end`
/// is left.
pub(crate) fn sweep_back(
    map: &mut IndexedMap,
    owner: Owner,
    first: u64,
    end: u64,
    command: &Command,
) -> u64
    requires keeping { IsKeeping ⟦<Rank as Ord>⟧.cmp map.old.ordered }
    requires reach { (q : Key) → covers_key command.now q ≡ true
        → (owner_of q ≡ Some owner) × (first < page_of q + 2 ^ span_of q) }
    ensures pruned { IsPruned ⟦<Rank as Ord>⟧.cmp (covers_key command.now) map.old.ordered
        map.new.ordered }
    ensures clean { (q : Key) → covers_key command.now q ≡ true → page_of q < end
        → result ≤ page_of q → tree.get ⟦<Rank as Ord>⟧.cmp map.new.ordered q ≡ None }
    ensures low { result ≤ first }
    ensures under { 0 < end → result < end }
{
    let mut upper = owner.least(end, 0);
    loop {
        match last_covered(&map.ordered, owner, first, upper, command) {
            Walked::Covered(key) => {
                map.remove(key);
                upper = key;
            }
            Walked::NoneFrom(page) => return page,
        }
    }
}
