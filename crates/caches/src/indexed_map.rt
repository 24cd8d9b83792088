//! The ordered map of all entries, with an index for look-ups.
//!
//! Each rank has one of the index's slots, by its mixed bits. A slot counts the entries that have it and notes the newest,
//! until that is taken out. So a look-up reads one slot if it finds the entry there, or if the slot has no others; else
//! the map has to be searched.
ghost use Rattle.std.specs.Prelude.{◌≡◌, ◌≤◌, ◌<◌, None, Some, IfSome, IfNone, IfOk, IsSome, false, is_some, not};
ghost use Rattle.std.specs.BTreeMap as tree;
ghost use Rattle.std.specs.BTreeMap.{IsEmpty, Updates, IsUnchanged, keys, insert_entry};
ghost use Rattle.std.proofs.Props.{props};
ghost use Rattle.caches.specs.Keys.{key_of, tag_of};
ghost use Rattle.caches.specs.Limits.{most_entries};
ghost use Rattle.caches.specs.Puts.{IsPut, IsTakenOut};
ghost use Rattle.caches.specs.Slots.{IsIndexed};

use crate::fault::CacheFault;
use crate::held_entry::HeldEntry;
use crate::rank::Rank;
use crate::slot::{Noted, Slot};
use crate::tag::{Entry, Tag};
use std::alloc::Global;
use std::collections::BTreeMap;

/// The logarithm of how many slots there are at least, since a command for one page that finds others in the slots of
/// what it looks for has to search the map.
const FEWEST_SLOTS_LOG2: u32 = 10;

/// The logarithm of how many there are at most: one for each entry that there may be.
const MOST_SLOTS_LOG2: u32 = 16;

/// All entries by their ranks, and the slots of the ranks.
#[derive(Drop)]
pub(crate) struct IndexedMap {
    /// To be read alone: what is put in or taken out changes the slots too.
    pub(crate) ordered: BTreeMap<Rank, HeldEntry>,
    /// There are none if there was no memory for them.
    slots: Vec<Slot>,
    /// How many of the lower of a rank's mixed bits its slot doesn't depend on.
    shift: u32,
    ghost shifted: { shift < 64 },
    ghost indexed: { IsIndexed ⟦<Rank as Ord>⟧.cmp shift ordered slots.items } by { Prim.hlevel props },
}

impl IndexedMap {
    /// Returns an empty map with a slot for each of the `most` entries that it may hold, if there is memory for them.
    pub(crate) fn new(alloc: Global, most: u32) -> IndexedMap
        requires { most ≤ most_entries }
        ensures { IsEmpty result.ordered }
    {
        let log2 = most
            .next_power_of_two()
            .trailing_zeros()
            .max(FEWEST_SLOTS_LOG2)
            .min(MOST_SLOTS_LOG2);
        let slots = match vec![in alloc; Slot::Unnoted { all: 0 }; 1 << log2] {
            Ok(slots) => slots,
            Err(_) => Vec::new(alloc),
        };
        IndexedMap {
            ordered: BTreeMap::new(alloc),
            slots,
            shift: 64 - log2,
        }
    }

    /// Returns the entry under a tag, if there is one.
    ///
    /// Inlined up to whoever looks up, as are the calls above it: who reads only the value needs no copy of the tag.
    #[inline(always)]
    pub(crate) fn get(&self, tag: &Tag) -> Option<Entry>
        ensures { result ≡ tree.get ⟦<Rank as Ord>⟧.cmp self.now.ordered (key_of tag.now) }
    {
        let rank = Rank::of(tag);
        match self.slots.get(rank.slot(self.shift)) {
            Some(Slot::Newest { others, noted }) => match noted.entry_at(rank, *tag) {
                Some(entry) => Some(entry),
                None if *others == 0 => None,
                None => self.search(rank),
            },
            Some(Slot::Unnoted { all }) if *all == 0 => None,
            Some(Slot::Unnoted { .. }) | None => self.search(rank),
        }
    }

    /// Whether there is an entry of a rank.
    ///
    /// Inlined, since a command for one page does little else.
    #[inline(always)]
    pub(crate) fn holds(&self, rank: Rank) -> bool
        ensures { result ≡ is_some (tree.get ⟦<Rank as Ord>⟧.cmp self.now.ordered rank) }
    {
        match self.slots.get(rank.slot(self.shift)) {
            Some(Slot::Newest { others, noted }) => {
                noted.rank == rank || (*others > 0 && self.search(rank).is_some())
            }
            Some(Slot::Unnoted { all }) => *all > 0 && self.search(rank).is_some(),
            None => self.search(rank).is_some(),
        }
    }

    /// Searches the ordered map.
    #[inline(never)]
    fn search(&self, rank: Rank) -> Option<Entry>
        ensures { result ≡ tree.get ⟦<Rank as Ord>⟧.cmp self.now.ordered rank }
    {
        self.ordered.get(&rank).map(|held| *held.get())
    }

    /// Removes all entries. Takes no memory.
    pub(crate) fn clear(&mut self)
        ensures { IsEmpty self.new.ordered }
    {
        self.ordered.clear();
        self.slots.fill(Slot::Unnoted { all: 0 });
    }

    /// Removes the entry of a rank, if there is one.
    pub(crate) fn remove(&mut self, rank: Rank)
        ensures { IsTakenOut ⟦<Rank as Ord>⟧.cmp self.old.ordered rank self.new.ordered }
    {
        let was_there = remove_in_order(&mut self.ordered, rank);
        let place = rank.slot(self.shift);
        if was_there && place < self.slots.len() {
            self.slots[place].take_out(rank);
        }
    }

    /// Puts an entry in under its rank, and returns the one that was there; C3 if memory runs out.
    pub(crate) fn put(
        &mut self,
        alloc: Global,
        rank: Rank,
        entry: Entry,
    ) -> Result<Option<Entry>, CacheFault>
        requires { entry.tag ≡ tag_of rank }
        ensures { IsPut ⟦<Rank as Ord>⟧.cmp self.old.ordered rank entry self.new.ordered result }
    {
        let Entry { value, born, .. } = entry;
        // For its clause `small`: a slot counts some of them.
        self.ordered.len();
        let is_new = !self.holds(rank);
        match put_in_order(&mut self.ordered, alloc, rank, entry, is_new) {
            Ok(was) => {
                let noted = Noted { rank, value, born };
                let place = rank.slot(self.shift);
                if place < self.slots.len() {
                    self.slots[place].put_in(noted, was.is_none());
                }
                Ok(was)
            }
            Err(fault) => Err(fault),
        }
    }
}

/// Puts an entry into the ordered map, and returns the one that was there; C3 if memory runs out for a new one.
fn put_in_order(
    ordered: &mut BTreeMap<Rank, HeldEntry>,
    alloc: Global,
    rank: Rank,
    entry: Entry,
    is_new: bool,
) -> Result<Option<Entry>, CacheFault>
    requires { is_new ≡ not (is_some (tree.get ⟦<Rank as Ord>⟧.cmp ordered.old rank)) }
    ensures put { IsPut ⟦<Rank as Ord>⟧.cmp ordered.old rank entry ordered.new result }
    ensures keys_stay { IfOk result (λ was. IsSome was → keys ordered.new ≡ keys ordered.old) }
    ensures entries { IfOk result (λ was. was ≡ None → ordered.new.entries
        ≡ insert_entry ⟦<Rank as Ord>⟧.cmp ordered.old.entries rank entry) }
{
    if !is_new {
        return Ok(write_over(ordered, rank, entry));
    }
    match HeldEntry::new(alloc, entry) {
        Ok(held) => match ordered.insert(rank, held) {
            Ok(_) => Ok(None),
            Err(_) => Err(CacheFault::NoMemory),
        },
        Err(_) => Err(CacheFault::NoMemory),
    }
}

/// Writes over the entry of a rank, and returns the one that was there; does nothing if there was none.
fn write_over(ordered: &mut BTreeMap<Rank, HeldEntry>, rank: Rank, entry: Entry) -> Option<Entry>
    ensures was { result ≡ tree.get ⟦<Rank as Ord>⟧.cmp ordered.old rank }
    ensures updates { IfSome result (λ was.
        Updates ⟦<Rank as Ord>⟧.cmp ordered.old ordered.new rank (Some entry)) }
    ensures keys { keys ordered.new ≡ keys ordered.old }
    ensures unchanged { IfNone result (IsUnchanged ordered.old ordered.new) }
{
    match ordered.get_mut(&rank) {
        Some(held) => Some(held.replace(entry)),
        None => None,
    }
}

/// Removes the entry of a rank from the ordered map, and tells whether there was one.
///
/// Not inlined: who calls it needs no stack for what the map moves.
#[inline(never)]
fn remove_in_order(ordered: &mut BTreeMap<Rank, HeldEntry>, rank: Rank) -> bool
    ensures was_there { result ≡ is_some (tree.get ⟦<Rank as Ord>⟧.cmp ordered.old rank) }
    ensures taken_out { IsTakenOut ⟦<Rank as Ord>⟧.cmp ordered.old rank ordered.new }
    ensures unchanged { result ≡ false → IsUnchanged ordered.old ordered.new }
{
    ordered.remove(&rank).is_some()
}
