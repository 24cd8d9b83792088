//! The entries that are held, by their tags.
//!
//! Taking an entry out of the ordered map is most of what a single command costs. So a command for one page or one
//! stream, and an eviction, list the rank of what they remove, and it counts as removed from then on. A fill under this rank
//! writes over what the map still has there. The ranks that are listed are taken out of the map together, before a 17th is.
ghost use Rattle.std.specs.Prelude.{◌≡◌, ◌≤◌, ◌<◌, ◌^◌, ◌&&◌, ℕ, IfSome, not, cond, filter, [], None};
ghost use Rattle.std.specs.Ordering.{eq_by_cmp};
ghost use Rattle.std.specs.List.Sorted.{IsPermutation, IsSortedByKey};
ghost use Rattle.std.specs.FinMap as finite;
ghost use Rattle.arrayvec.specs.ArrayVec.{array_vec_len};
ghost use Rattle.caches.specs.declared.tag.Tag.{Tag};
ghost use Rattle.caches.specs.declared.tag.Entry.{Entry};
ghost use Rattle.caches.specs.Blocks.{IsBlock, HasSpan};
ghost use Rattle.caches.specs.Held.{without_covered, without_evicted, AreOwn};
ghost use Rattle.caches.specs.Keys.{tag_of};
ghost use Rattle.caches.specs.Limits.{most_entries, most_removed};
ghost use Rattle.caches.specs.OnePages.{is_block_at, is_on};
ghost use Rattle.caches.specs.OneStreams.{is_of, is_in};
ghost use Rattle.caches.specs.Spanned.{HasNoneOf};
ghost use Rattle.caches.specs.Stored.{IsFilled, IsListAnswer};
ghost use Rattle.caches.specs.TagOrder.{tag_cmp, numbers};
ghost use Rattle.caches.specs.Told.{AreTold, only_covered};
ghost use Rattle.caches.specs.Unlisted.{is_listed, unlisted, IsPartOf};

use crate::covered::tell_covered;
use crate::entry_test::EntryTest;
use crate::evicting::remove_passing;
use crate::fault::CacheFault;
use crate::held_entry::HeldEntry;
use crate::indexed_map::IndexedMap;
use crate::key::Key;
use crate::one_page::{Holder, OnePage};
use crate::one_stream::OneStream;
use crate::ranges::remove_all_covered;
use crate::rank::Rank;
use crate::spans::Spans;
use crate::tag::{Entry, Tag};
use arrayvec::ArrayVec;
use cmdcodec::Command;
use std::alloc::Global;
use std::marker::Model;

/// How many ranks are listed at most.
const MOST_REMOVED: usize = 16;

/// The entries that are held: those of a map but for a few.
#[derive(Drop)]
pub(crate) struct EntryMap {
    /// The ranks of entries that count as removed, which the map may still have.
    removed: ArrayVec<Rank, MOST_REMOVED>,
    map: IndexedMap,
    /// How many entries are held.
    len: usize,
    /// The spans of the blocks that are or were in the map.
    spans: Spans,
    /// Whether a context descriptor of another substream than 0 is or was held.
    substreams: bool,
}

impl Model for EntryMap {
    ghost use Rattle.std.specs.FinMap as finite;
    ghost use Rattle.caches.specs.Held.{Entries};
    ghost use Rattle.caches.specs.TagOrder.{tag_code, entry_code};
    ghost use Rattle.caches.specs.EntryMaps.{unremoved, IsEntryMap};

    ghost Value = { Entries };

    ghost coded = { finite.code tag_code entry_code };

    ghost view = { unremoved };

    ghost invariant = { IsEntryMap ⟦<Rank as Ord>⟧.cmp };
}

impl EntryMap {
    /// Returns an empty map with room for `most` entries in its index, if there is memory for that.
    pub(crate) fn new(alloc: Global, most: u32) -> EntryMap
        requires { most ≤ most_entries }
        ensures { result ≡ finite.empty }
    {
        EntryMap {
            map: IndexedMap::new(alloc, most),
            removed: ArrayVec::new(),
            len: 0,
            spans: Spans::none(),
            substreams: false,
        }
    }

    /// Returns the number of entries.
    pub(crate) fn len(&self) -> usize
        ensures { result ≡ finite.len self.now }
    {
        self.len
    }

    /// Returns the entry under a tag, if there is one.
    #[inline(always)]
    pub(crate) fn get(&self, tag: &Tag) -> Option<Entry>
        ensures value { result ≡ finite.get self.now tag.now }
        ensures own { IfSome result (λ entry. entry.tag ≡ tag.now) }
    {
        if is_among(&self.removed, Rank::of(tag)) {
            return None;
        }
        self.map.get(tag)
    }

    /// Each entry is held under its own tag. Does nothing.
    pub(crate) fn are_own(&self)
        ensures { AreOwn self.now }
    {
        let _ = &self.map;
    }

    /// Returns those of a mask of spans, bit n for blocks of `2^n` pages, that a block was ever put in with.
    pub(crate) fn spans_among(&self, spans: u64) -> u64
        ensures few { result < 2 ^ 53 }
        ensures asked { (n : ℕ) → HasSpan result n → HasSpan spans n }
        ensures others { (n : ℕ) → HasSpan spans n → ¬ HasSpan result n → HasNoneOf self.now n }
    {
        self.spans.among(spans)
    }

    /// Returns all entries in tag order; C3 if memory runs out.
    pub(crate) fn list(&self, alloc: Global) -> Result<Vec<Entry>, CacheFault>
        ensures { IsListAnswer self.now result }
    {
        match self
            .map
            .ordered
            .values()
            .map(
                |held: &HeldEntry| -> Entry
                    ensures { result ≡ held.now }
                { *held.get() },
            )
            .collect::<Vec<Entry>>(alloc)
        {
            Ok(mut list) => {
                drop_listed(&mut list, &self.removed);
                sort_by_tag(&mut list);
                Ok(list)
            }
            Err(_) => Err(CacheFault::NoMemory),
        }
    }

    /// Puts an entry in under its tag, and returns the one that was there; C3 if memory runs out.
    pub(crate) fn put(&mut self, alloc: Global, entry: Entry) -> Result<Option<Entry>, CacheFault>
        requires block { IsBlock entry.tag }
        requires room { finite.get self.old entry.tag ≡ None → finite.len self.old < most_entries }
        ensures { IsFilled self.old entry self.new result }
    {
        self.spans.add(Key::of(&entry.tag).span());
        self.substreams = self.substreams || entry.tag.is_of_substream();
        let rank = Rank::of(&entry.tag);
        let was_removed = take_off(&mut self.removed, rank);
        match self.map.put(alloc, rank, entry) {
            Ok(was) => {
                let held = unless_removed(was, was_removed);
                if held.is_none() {
                    self.len += 1;
                }
                Ok(held)
            }
            Err(fault) => Err(fault),
        }
    }

    /// Removes all entries. Takes no memory.
    pub(crate) fn clear(&mut self)
        ensures after { self.new ≡ finite.empty }
        ensures len { finite.len self.new ≡ 0 }
    {
        self.removed.clear();
        self.map.clear();
        self.len = 0;
        self.spans = Spans::none();
        self.substreams = false;
    }

    /// Removes the entry of a rank, if there is one.
    pub(crate) fn remove(&mut self, rank: Rank)
        ensures { self.new ≡ finite.remove self.old (tag_of rank) }
    {
        if self.map.holds(rank) && !is_among(&self.removed, rank) {
            make_room(&mut self.map, &mut self.removed);
            self.removed.push(rank);
            self.len -= 1;
        }
    }

    /// Writes the entries that `command` covers to the beginning of `room` as far as it reaches, and returns how many
    /// they are. Takes no memory.
    pub(crate) fn covered(&self, command: &Command, room: &mut [Entry]) -> usize
        ensures { AreTold (only_covered command.now self.now) room.old room.new result }
    {
        tell_covered(&self.map.ordered, &self.removed, command, room)
    }

    /// Removes the entries that `command` covers. Takes no memory.
    ///
    /// If there are none it doesn't look at the command, so that a command that is only judged never has to be built.
    #[inline]
    pub(crate) fn remove_covered(&mut self, command: &Command)
        ensures { self.new ≡ without_covered command.now self.old }
    {
        if self.len > 0 {
            self.remove_from_filled(command);
        }
    }

    /// The same where there may be entries.
    #[inline(never)]
    fn remove_from_filled(&mut self, command: &Command)
        ensures { self.new ≡ without_covered command.now self.old }
    {
        // Read ahead of the match, so that what holds of the whole is known in each of its branches.
        let substreams = self.substreams;
        match OnePage::of(command) {
            Some(one) => self.remove_on(one),
            None => match OneStream::of(command, substreams) {
                Some(one) => self.remove_in(one),
                None => self.sweep(command),
            },
        }
    }

    /// The same by a walk along the map. What is listed stays in it: only if the walk takes out others is the list
    /// made anew.
    fn sweep(&mut self, command: &Command)
        ensures { self.new ≡ without_covered command.now self.old }
    {
        let before = self.map.ordered.len();
        remove_all_covered(&mut self.map, &self.spans, command);
        if self.map.ordered.len() != before {
            self.len = recount(&self.map, &mut self.removed);
        }
    }

    /// Removes the entries that pass a test. Takes no memory.
    pub(crate) fn remove_passing<T: EntryTest>(&mut self, test: &T)
        ensures { self.new ≡ without_evicted (T.evicted test.now) self.old }
    {
        remove_passing(&mut self.map, test);
        self.len = recount(&self.map, &mut self.removed);
    }

    /// Removes the blocks that hold a page.
    fn remove_on(&mut self, one: OnePage)
        ensures { (tag : Tag)
            → finite.get self.new tag ≡ cond (is_on one tag) None (finite.get self.old tag) }
    {
        self.remove_blocks(one.own, one.page);
        if let Some(shared) = one.shared {
            self.remove_blocks(shared, one.page);
        }
    }

    /// Removes what is held of a stream's configuration under the keys that are given.
    fn remove_in(&mut self, one: OneStream)
        ensures { (tag : Tag)
            → finite.get self.new tag ≡ cond (is_in one tag) None (finite.get self.old tag) }
    {
        self.remove_if_some(one.ste);
        self.remove_if_some(one.cd);
    }

    /// Removes the entry of a rank, if one is given and held.
    fn remove_if_some(&mut self, rank: Option<Rank>)
        ensures { (tag : Tag)
            → finite.get self.new tag ≡ cond (is_of rank tag) None (finite.get self.old tag) }
    {
        if let Some(rank) = rank {
            self.remove(rank);
        }
    }

    /// Removes the blocks of a holder that hold a page.
    fn remove_blocks(&mut self, holder: Holder, page: u64)
        ensures { (tag : Tag)
            → finite.get self.new tag
            ≡ cond (is_block_at holder page tag) None (finite.get self.old tag) }
    {
        for span in 0..self.spans.end() {
            if self.spans.has(span) {
                self.remove(holder.block_at(page, span));
            }
        }
    }
}

/// Whether a rank is listed.
///
/// Inlined, since the list is mostly empty.
#[inline(always)]
pub(crate) fn is_among(ranks: &[Rank], rank: Rank) -> bool
    ensures { result ≡ is_listed ranks.now (tag_of rank) }
{
    !ranks.is_empty() && ranks.contains(&rank)
}

/// Takes what is listed out of the map.
fn take_out(map: &mut IndexedMap, removed: &mut ArrayVec<Rank, MOST_REMOVED>)
    ensures same { unlisted map.new.ordered removed.new.items
        ≡ unlisted map.old.ordered removed.old.items }
    ensures pruned { IsPartOf ⟦<Rank as Ord>⟧.cmp map.new.ordered map.old.ordered }
    ensures none { removed.new.items ≡ [] }
{
    while let Some(rank) = removed.pop() {
        map.remove(rank);
    }
}

/// Returns what was held under a rank where the map had `was`.
fn unless_removed(was: Option<Entry>, was_removed: bool) -> Option<Entry>
    ensures { result ≡ cond was_removed None was }
{
    if was_removed { None } else { was }
}

/// Takes a rank off the list, and tells whether it was on it.
fn take_off(removed: &mut ArrayVec<Rank, MOST_REMOVED>, rank: Rank) -> bool
    ensures was { result ≡ is_listed removed.old.items (tag_of rank) }
    ensures rest { (tag : Tag)
        → is_listed removed.new.items tag
        ≡ (is_listed removed.old.items tag && not (eq_by_cmp tag_cmp tag (tag_of rank))) }
{
    let was = is_among(removed, rank);
    if was {
        removed.retain(|listed| *listed != rank);
    }
    was
}

/// Takes what is listed out of the map if no more can be listed.
fn make_room(map: &mut IndexedMap, removed: &mut ArrayVec<Rank, MOST_REMOVED>)
    ensures same { unlisted map.new.ordered removed.new.items
        ≡ unlisted map.old.ordered removed.old.items }
    ensures pruned { IsPartOf ⟦<Rank as Ord>⟧.cmp map.new.ordered map.old.ordered }
    ensures room { array_vec_len removed.new < most_removed }
{
    if removed.is_full() {
        take_out(map, removed);
    }
}

/// Drops from the list what the map no longer has, and returns how many of its entries are not on the list.
///
/// Stays a call, since few walks need it.
#[inline(never)]
fn recount(map: &IndexedMap, removed: &mut ArrayVec<Rank, MOST_REMOVED>) -> usize
    ensures same { unlisted map.now.ordered removed.new.items
        ≡ unlisted map.now.ordered removed.old.items }
    ensures len { result ≡ finite.len (unlisted map.now.ordered removed.new.items) }
{
    let mut len = map.ordered.len();
    let listed = removed.take();
    for &rank in listed.iter() {
        if map.holds(rank) && !is_among(removed, rank) {
            removed.push(rank);
            len -= 1;
        }
    }
    len
}

/// Drops from a list the entries whose ranks are listed.
fn drop_listed(list: &mut Vec<Entry>, ranks: &[Rank])
    ensures { list.new.items
        ≡ filter (λ (entry : Entry). not (is_listed ranks.now entry.tag)) list.old.items }
{
    list.retain(
        |entry: &Entry| -> bool
            ensures { result ≡ not (is_listed ranks.entry.now entry.now.tag) }
        { !is_among(ranks, Rank::of(&entry.tag)) },
    );
}

/// Sorts entries by tag. Takes no memory.
fn sort_by_tag(list: &mut Vec<Entry>)
    ensures permutation { IsPermutation list.old.items list.new.items }
    ensures sorted { IsSortedByKey (λ (entry : Entry). entry.tag) tag_cmp list.new.items }
{
    list.sort_unstable_by_key(
        |entry: &Entry| -> [u64; 5]
            ensures { result ≡ numbers entry.now.tag }
        { entry.tag.numbers() },
    );
}
