//! The transactions that are outstanding.
ghost use Rattle.std.specs.Prelude.{◌≡◌, ◌<◌, ◌≤◌, ◌^◌, List, length, map, replicate, count_by};
ghost use Rattle.std.specs.Prelude.{slice_get, slice_set, Some, None, false};
ghost use Rattle.std.specs.Prelude.{IfOk, IfSome, IsTrue, ◌↔◌};
ghost use Rattle.std.specs.Option.{MatchOption};
ghost use Rattle.cmdcodec.specs.declared.command.Command.{Command as CommandOf};
ghost use Rattle.cmdcodec.specs.Spelling.{Spells};
ghost use Rattle.transactions.specs.Between.{IsInsertAnswer};
ghost use Rattle.transactions.specs.FreeSlots.{AreOwnPlaces, HasBlocks};
ghost use Rattle.transactions.specs.Outstanding.{cover, is_covered, IsBlockOf, UsesBlock};
ghost use Rattle.transactions.specs.Outstanding.{IsAt, IsEmptyAt, AreCountsOf};

use crate::transaction::OutstandingCounts;
use crate::used::{Used, concerns};
use cmdcodec::{Command, Raw, decode};
use std::alloc::{AllocError, Global};
use std::marker::Model;

/// A transaction that is outstanding: which one it is, what it uses, when that was born, and
/// whether a command taken since concerns it.
#[derive(Clone, Copy, Debug, PartialEq, Eq)]
pub struct OutstandingTransaction {
    pub number: u64,
    pub used: Used,
    pub born: u64,
    pub covered: bool,
}

/// Room for transactions, made at the beginning. To begin and to end one take as long however many
/// there are.
#[derive(Drop)]
pub struct OutstandingTransactions {
    slots: Vec<Option<OutstandingTransaction>>,
    /// From `count` on the slots that are free; what is ahead means nothing.
    free: Vec<usize>,
    /// How many are outstanding.
    count: usize,
    /// How many of those are covered.
    covered: u32,
}

impl Model for OutstandingTransactions {
    ghost use Rattle.transactions.specs.Outstanding.{Slots};
    ghost use Rattle.transactions.specs.FreeSlots.{AreOutstanding};

    ghost Value = { Slots };

    ghost view = { λ t. t.slots.items };

    ghost invariant = { λ t. AreOutstanding t.slots.items t.free.items t.count t.covered };
}

impl OutstandingTransactions {
    /// Room for so many transactions, none of them outstanding.
    pub(crate) fn new(alloc: Global, room: u16) -> Result<OutstandingTransactions, AllocError>
        ensures { IfOk result (λ t. t ≡ replicate room None) }
    {
        let mut slots = Vec::new(alloc);
        slots.resize(usize::from(room), None)?;
        let free = slot_numbers(alloc, usize::from(room))?;
        Ok(OutstandingTransactions {
            slots,
            free,
            count: 0,
            covered: 0,
        })
    }

    /// A command with these words was applied: those are covered from now on that it concerns. The
    /// words are decoded only if one is outstanding.
    pub(crate) fn cover(&mut self, raw: Raw)
        ensures { (command : CommandOf) → Spells raw command
            → self.new ≡ map (cover command) self.old }
    {
        if self.count == 0 {
            return;
        }
        if let Ok(command) = decode(raw) {
            cover_all(&command, &mut self.slots);
            self.covered = count_covered(&self.slots);
        }
    }

    /// How many are outstanding, and how many of them are covered.
    pub(crate) fn counts(&self) -> OutstandingCounts
        ensures { AreCountsOf self.now result }
    {
        OutstandingCounts {
            outstanding: self.count as u32,
            covered: self.covered,
        }
    }

    /// How many are covered.
    pub(crate) fn covered(&self) -> u32
        ensures { result ≡ count_by is_covered self.now }
    {
        self.covered
    }

    /// The transaction that is outstanding in a slot.
    pub(crate) fn get(&self, slot: usize) -> Option<OutstandingTransaction>
        ensures { MatchOption result (IsEmptyAt self.now slot) (λ o. IsAt self.now slot o) }
    {
        if slot < self.slots.len() {
            self.slots[slot]
        } else {
            None
        }
    }

    /// Puts one that isn't covered into a free slot, and returns that.
    pub(crate) fn insert(&mut self, transaction: OutstandingTransaction) -> Option<usize>
        requires block { UsesBlock transaction.used }
        requires uncovered { transaction.covered ≡ false }
        ensures inserted { IsInsertAnswer self.old transaction self.new result }
        ensures few { IfSome result (λ slot. slot < 2 ^ 16) }
    {
        if self.count >= self.free.len() {
            return None;
        }
        let slot = self.free[self.count];
        self.slots[slot] = Some(transaction);
        self.count += 1;
        Some(slot)
    }

    /// How many slots there are.
    fn room(&self) -> usize
        ensures { result ≡ length self.now }
    {
        self.slots.len()
    }

    /// Frees every slot.
    pub(crate) fn clear(&mut self)
        ensures { self.new ≡ replicate (length self.old) None }
    {
        for slot in 0..self.room() {
            if let Some(outstanding) = self.get(slot) {
                self.remove(slot, outstanding);
            }
        }
    }

    /// Frees the slot of one that is outstanding.
    pub(crate) fn remove(&mut self, slot: usize, transaction: OutstandingTransaction)
        requires outstanding { IsAt self.old slot transaction }
        ensures { self.new ≡ slice_set self.old slot None }
    {
        self.slots[slot] = None;
        self.count -= 1;
        self.free[self.count] = slot;
        if transaction.covered {
            self.covered -= 1;
        }
    }
}

/// The numbers of so many slots.
fn slot_numbers(alloc: Global, room: usize) -> Result<Vec<usize>, AllocError>
    ensures many { IfOk result (λ numbers. length numbers.items ≡ room) }
    ensures numbers { IfOk result (λ numbers. AreOwnPlaces room numbers.items) }
{
    let mut numbers = Vec::new(alloc);
    numbers.resize(room, 0)?;
    for slot in 0..numbers.len() {
        numbers[slot] = slot;
    }
    Ok(numbers)
}

fn count_covered(slots: &[Option<OutstandingTransaction>]) -> u32
    requires { length slots.now < 2 ^ 16 }
    ensures { result ≡ count_by is_covered slots.now }
{
    let mut count = 0;
    for slot in slots {
        if is_covered(*slot) {
            count += 1;
        }
    }
    count
}

fn cover_all(command: &Command, slots: &mut Vec<Option<OutstandingTransaction>>)
    requires { HasBlocks slots.old.items }
    ensures { slots.new.items ≡ map (cover command.now) slots.old.items }
{
    for slot in slots.iter_mut() {
        *slot = cover(command, *slot);
    }
}

fn cover(command: &Command, slot: Option<OutstandingTransaction>) -> Option<OutstandingTransaction>
    requires { IsBlockOf slot }
    ensures { result ≡ cover command.now slot }
{
    match slot {
        None => None,
        Some(outstanding) => {
            let covered = outstanding.covered || concerns(command, &outstanding.used);
            Some(OutstandingTransaction {
                covered,
                ..outstanding
            })
        }
    }
}

fn is_covered(slot: Option<OutstandingTransaction>) -> bool
    ensures { result ≡ is_covered slot }
{
    match slot {
        None => false,
        Some(outstanding) => outstanding.covered,
    }
}
