//! The caches: entries up to a capacity.
ghost use Rattle.std.specs.Prelude.{◌≡◌, ◌+◌, ◌<◌, ◌≤◌, ◌↔◌, All, take, IfOk, IfSome, OnOk, OnErr, Err, None, Some, [], ◌∷◌, ◌++◌};
ghost use Rattle.std.specs.FinMap as finite;
ghost use Rattle.caches.specs.Limits.{most_entries, IsCapacity};
ghost use Rattle.caches.specs.declared.tag.Entry.{Entry};
ghost use Rattle.caches.specs.Blocks.{IsBlock};
ghost use Rattle.caches.specs.Finding.{IsFound, IsHeldIn};
ghost use Rattle.caches.specs.Held.{without_covered, without_older, without_passing, evictions, older_evictions, held, AreOwn, History, Fill, Evict, Take};
ghost use Rattle.caches.specs.Stored.{IsFilled, IsFillAnswer, IsListAnswer};
ghost use Rattle.caches.specs.Told.{AreTold, IsCoveredIn, only_covered};

use crate::address_space::AddressSpace;
use crate::entry_map::EntryMap;
use crate::entry_test::Older;
use crate::fault::CacheFault;
use crate::rank::Rank;
use crate::tag::{Entry, Tag};
use crate::tag_test::TagTest;
use cmdcodec::{Command, Page};
use std::alloc::Global;
use std::marker::Model;

/// The most entries that caches may hold (own).
pub const MOST_ENTRIES: u32 = 65_536;

/// The caches of an SMMU and of the endpoints behind it: at most `capacity` entries, one per tag.
#[derive(Drop)]
pub struct Caches {
    alloc: Global,
    capacity: u32,
    held: EntryMap,
}

impl Model for Caches {
    ghost use Rattle.caches.specs.Stored.{Stored, stored_code};

    ghost Value = { Stored };

    ghost coded = { stored_code };

    ghost use Rattle.caches.specs.Views.{stored, AreCaches};

    ghost view = { stored };

    ghost invariant = { AreCaches };
}

impl Caches {
    /// Creates empty caches with a capacity of 1 to 65,536 entries.
    ///
    /// Takes some 48 bytes for each of them, rounded up to a power of two and at least 48 KiB, for an index; if there is no
    /// memory for that, look-ups search.
    ///
    /// Errors: only C4, if the capacity is out of this range.
    pub fn new(alloc: Global, capacity: u32) -> Result<Caches, CacheFault>
        ensures ok { IfOk result (λ caches. (caches.capacity ≡ capacity)
            × (caches.entries ≡ held [])) }
        ensures err { OnErr result (result ≡ Err CacheFault.BadCapacity) }
        ensures when { (result ≡ Err CacheFault.BadCapacity) ↔ ¬ IsCapacity capacity }
    {
        if capacity == 0 || capacity > MOST_ENTRIES {
            return Err(CacheFault::BadCapacity);
        }
        Ok(Caches {
            alloc,
            capacity,
            held: EntryMap::new(alloc, capacity),
        })
    }

    /// Returns the entry held under `tag`, if any.
    #[inline(always)]
    pub fn lookup(&self, tag: &Tag) -> Option<Entry>
        ensures value { result ≡ finite.get self.now.entries tag.now }
        ensures own { IfSome result (λ entry. entry.tag ≡ tag.now) }
    {
        self.held.get(tag)
    }

    /// Returns the entry that holds a page of an address space, at the greatest of these spans that has one: bit n of
    /// `spans` stands for blocks of `2^n` pages, 0 to 52, and higher bits mean nothing. At each span the space's own entry
    /// comes before the global one (this project's choice).
    pub fn find(&self, space: &AddressSpace, page: Page, spans: u64) -> Option<Entry>
        ensures found { IsFound self.now.entries space.now page spans result }
        ensures own { IsHeldIn self.now.entries result }
    {
        self.held.find(space, page, spans)
    }

    /// Each entry is held under its own tag. Does nothing: callers learn it.
    pub fn are_own(&self)
        ensures { AreOwn self.now.entries }
    {
        self.held.are_own();
    }

    /// Returns the number of entries held.
    pub fn len(&self) -> usize
        ensures len { result ≡ finite.len self.now.entries }
        ensures within { result ≤ self.now.capacity }
        ensures capacity { self.now.capacity ≤ most_entries }
    {
        self.held.len()
    }

    /// Returns all entries held, in tag order.
    ///
    /// Errors: only C3, if memory runs out.
    pub fn entries(&self) -> Result<Vec<Entry>, CacheFault>
        ensures { IsListAnswer self.now.entries result }
    {
        self.held.list(self.alloc)
    }

    /// Tells which entries `command` covers, those that `apply` would remove, and removes none: writes them in no
    /// particular order to the beginning of `entries`, as many as there is room for, leaves the rest of it as it is,
    /// and returns how many there are in all. Takes no memory; one walk along all entries (this project's choice).
    pub fn covered(&self, command: &Command, entries: &mut [Entry]) -> usize
        ensures told { AreTold (only_covered command.now self.now.entries)
            entries.old entries.new result }
        ensures own { All (IsCoveredIn self.now.entries command.now) (take result entries.new) }
        ensures counted { result + finite.len (without_covered command.now self.now.entries)
            ≡ finite.len self.now.entries }
        ensures few { result ≤ most_entries }
    {
        self.held.are_own();
        self.held.covered(command, entries)
    }

    /// Removes the entries that `command` covers and returns how many there were.
    #[inline]
    pub fn apply(&mut self, command: &Command) -> u32
        ensures after { self.new.entries ≡ without_covered command.now self.old.entries }
        ensures capacity { self.new.capacity ≡ self.old.capacity }
        ensures removed { result + finite.len self.new.entries ≡ finite.len self.old.entries }
        ensures few { result ≤ most_entries }
        ensures held { (h : History) → self.old.entries ≡ held h
            → self.new.entries ≡ held (Take command.now ∷ h) }
    {
        let before = self.len();
        self.held.remove_covered(command);
        (before - self.len()) as u32
    }

    /// Removes and returns the entry held under `tag`, if any.
    pub fn evict(&mut self, tag: &Tag) -> Option<Entry>
        ensures was { result ≡ finite.get self.old.entries tag.now }
        ensures after { self.new.entries ≡ finite.remove self.old.entries tag.now }
        ensures capacity { self.new.capacity ≡ self.old.capacity }
        ensures held { (h : History) → self.old.entries ≡ held h
            → self.new.entries ≡ held (Evict tag.now ∷ h) }
    {
        let was = self.held.get(tag);
        self.held.remove(Rank::of(tag));
        was
    }

    /// Removes all entries whose tags pass `test` and returns how many there were. Takes no memory, so that it makes
    /// room in full caches whatever else is short; one walk along all entries (this project's choice).
    pub fn evict_all<T: TagTest>(&mut self, test: &T) -> u32
        ensures after { self.new.entries ≡ without_passing (T.passing test.now) self.old.entries }
        ensures capacity { self.new.capacity ≡ self.old.capacity }
        ensures removed { result + finite.len self.new.entries ≡ finite.len self.old.entries }
        ensures few { result ≤ most_entries }
        ensures held { (h : History) → self.old.entries ≡ held h
            → self.new.entries ≡ held (evictions (T.passing test.now) self.old.entries ++ h) }
    {
        let held = self.len();
        self.held.are_own();
        self.held.remove_passing(test);
        (held - self.len()) as u32
    }

    /// Removes all entries that were filled before `born` commands were taken, those whose `born` is less, and returns
    /// how many there were. Takes no memory; one walk along all entries (this project's choice).
    pub fn evict_older(&mut self, born: u64) -> u32
        ensures after { self.new.entries ≡ without_older born self.old.entries }
        ensures capacity { self.new.capacity ≡ self.old.capacity }
        ensures removed { result + finite.len self.new.entries ≡ finite.len self.old.entries }
        ensures few { result ≤ most_entries }
        ensures held { (h : History) → self.old.entries ≡ held h
            → self.new.entries ≡ held (older_evictions born self.old.entries ++ h) }
    {
        let all = self.len();
        self.held.remove_passing(&Older(born));
        (all - self.len()) as u32
    }

    /// Removes all entries, in place, as a device's reset does (this project's choice). Takes no memory.
    pub fn clear(&mut self)
        ensures entries { self.new.entries ≡ held [] }
        ensures capacity { self.new.capacity ≡ self.old.capacity }
    {
        self.held.clear();
    }

    /// Puts `entry` in and returns the one held under its tag before, if any.
    ///
    /// Errors, in this order, each leaving the caches unchanged: C2 if the tag's block isn't well formed; C1
    /// if the tag is new and the caches are full; C3 if the tag is new and memory runs out.
    pub fn fill(&mut self, entry: Entry) -> Result<Option<Entry>, CacheFault>
        ensures answer { IsFillAnswer self.old entry.tag result }
        ensures after { OnOk result (self.new.entries
            ≡ finite.insert self.old.entries entry.tag entry) }
        ensures err { OnErr result (self.new.entries ≡ self.old.entries) }
        ensures capacity { self.new.capacity ≡ self.old.capacity }
        ensures held { OnOk result ((h : History) → self.old.entries ≡ held h
            → self.new.entries ≡ held (Fill entry ∷ h)) }
    {
        if !entry.tag.is_block() {
            return Err(CacheFault::BadBlock);
        }
        if self.len() == self.capacity as usize && self.lookup(&entry.tag).is_none() {
            return Err(CacheFault::Full);
        }
        self.put(entry)
    }

    /// Puts in an entry for which there is room.
    fn put(&mut self, entry: Entry) -> Result<Option<Entry>, CacheFault>
        requires block { IsBlock entry.tag }
        requires room { finite.get self.old.entries entry.tag ≡ None
            → finite.len self.old.entries < self.old.capacity }
        ensures put { IsFilled self.old.entries entry self.new.entries result }
        ensures capacity { self.new.capacity ≡ self.old.capacity }
    {
        self.held.put(self.alloc, entry)
    }
}
