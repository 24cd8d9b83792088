//! What a unit with walks and transactions knows of them beside its commands.
ghost use Rattle.std.specs.Prelude.{◌≡◌, ◌<◌, ◌^◌, [], None, Err};
ghost use Rattle.std.specs.Prelude.{IfOk, OnOk, OnErr, IfSome};
ghost use Rattle.cmdcodec.specs.Legality.{first_ill};
ghost use Rattle.engine.specs.Units.{UnitValue};
ghost use Rattle.transactions.specs.Between.{IsWaitAnswer, HasNoted, IsRefusal, IsBegunIfRoom};
ghost use Rattle.transactions.specs.Outstanding.{AreCountsOf};
ghost use Rattle.transactions.specs.Tracking.{new_tracking, reset_tracking, tracked_with};
ghost use Rattle.transactions.specs.Tracking.{StaysTracked};
ghost use Rattle.transactions.specs.Together.{StaysTogether};
ghost use Rattle.transactions.specs.Transactions.{IsBeginAnswer, IsBeginWalkedAnswer, IsEndAnswer};
ghost use Rattle.transactions.specs.Transactions.{bits_of, IsOutstandingWalk};
ghost use Rattle.transactions.specs.Tracking.{unit_of};
ghost use Rattle.transactions.specs.Outstanding.{UsesBlock};
ghost use Rattle.transactions.specs.Walks.{AnswersWalk, IsCachesAnswer, with_walked};

use crate::coverage::is_invalidation;
use crate::outstanding::{OutstandingTransaction, OutstandingTransactions};
use crate::recent_invalidations::{Invalidation, RecentInvalidations};
use crate::transaction::{
    BeginFault, Ended, OutstandingCounts, Transaction, first_number, number_after, unit_of,
};
use crate::used::Used;
use crate::walk::{Walk, WalkFault};
use caches::{CacheFault, Entry, Tag};
use cmdcodec::{Raw, first_ill};
use engine::Unit;
use std::alloc::{AllocError, Global};
use std::marker::Model;

/// The last invalidations, by which walks are judged, and the transactions that are outstanding.
/// Its calls are lent the unit whose commands these are.
#[derive(Drop)]
pub struct Tracking {
    recent: RecentInvalidations,
    outstanding: OutstandingTransactions,
    next_number: u64,
}

impl Model for Tracking {
    ghost use Rattle.transactions.specs.Tracking.{TrackingValue, IsNumber};

    ghost Value = { TrackingValue };

    ghost view = { λ t. record {
      recent = t.recent;
      outstanding = t.outstanding;
      next_number = t.next_number;
    } };

    ghost invariant = { λ t. IsNumber t.next_number };
}

impl Tracking {
    /// Of a unit of this number. Nothing was taken yet, and there is room for so many transactions.
    pub(crate) fn new(alloc: Global, number: u8, room: u16) -> Result<Tracking, AllocError>
        ensures { IfOk result (λ t. t ≡ new_tracking number room) }
    {
        let recent = RecentInvalidations::new(alloc)?;
        let outstanding = OutstandingTransactions::new(alloc, room)?;
        Ok(Tracking {
            recent,
            outstanding,
            next_number: first_number(number),
        })
    }

    /// The unit's number.
    pub(crate) fn unit_number(&self) -> u64
        ensures number { result ≡ unit_of self.now.next_number }
        ensures few { result < 2 ^ 8 }
    {
        unit_of(self.next_number)
    }

    /// Nothing was taken since, and no transaction is outstanding. Their numbers go on. Takes no
    /// memory.
    pub(crate) fn reset(&mut self)
        ensures { self.new ≡ reset_tracking self.old }
    {
        self.recent.clear();
        self.outstanding.clear();
    }

    /// How many transactions a command has to wait for, if it has to.
    pub(crate) fn has_to_wait(&self, raw: Raw) -> Option<u32>
        ensures { IsWaitAnswer raw self.now.outstanding result }
    {
        if !raw.is_sync() || first_ill(raw).is_some() {
            return None;
        }
        let transactions = self.outstanding.covered();
        if transactions == 0 {
            return None;
        }
        Some(transactions)
    }

    /// A command was applied, behind so many that were taken: if it is an invalidation its words
    /// are kept, and those transactions are covered from now on that it concerns.
    ///
    /// Not inlined: who judges a command needs no stack for its fields meanwhile.
    #[inline(never)]
    pub(crate) fn note(&mut self, place: u64, raw: Raw)
        requires legal { first_ill raw ≡ None }
        ensures noted { HasNoted place raw self.old self.new }
    {
        if is_invalidation(raw) {
            self.recent.keep(Invalidation { place, raw });
            self.outstanding.cover(raw);
        }
    }

    /// Fills what a walk read that began after so many commands.
    pub(crate) fn fill_walked(
        &self,
        unit: &mut Unit,
        began: u64,
        tag: Tag,
        value: u64,
    ) -> Result<Option<Entry>, WalkFault>
        ensures answer { AnswersWalk (tracked_with unit.old self.now) began tag result }
        ensures caches { IsCachesAnswer unit.old.caches tag result }
        ensures ok { OnOk result (tracked_with unit.new self.now
            ≡ with_walked began tag value (tracked_with unit.old self.now)) }
        ensures err { OnErr result (unit.new ≡ unit.old) }
        ensures tracked { StaysTracked (tracked_with unit.old self.now)
            (tracked_with unit.new self.now) [] }
        ensures together { StaysTogether (tracked_with unit.old self.now)
            (tracked_with unit.new self.now) }
    {
        if let Some(fault) = self.refusal(unit, began, &tag) {
            return Err(fault);
        }
        let born = began;
        match unit.fill_born(Entry { tag, value, born }) {
            Ok(was) => Ok(was),
            Err(fault) => Err(WalkFault::Refused(fault)),
        }
    }

    /// Why what a walk read can't be used, if the caches needn't be asked for that.
    fn refusal(&self, unit: &Unit, began: u64, tag: &Tag) -> Option<WalkFault>
        ensures { IsRefusal (tracked_with unit.now self.now) began tag.now result }
    {
        if !tag.is_block() {
            return None;
        }
        if began > unit.counts().taken() {
            return Some(WalkFault::OtherUnit);
        }
        if self.recent.is_before_oldest(began) {
            return Some(WalkFault::TooOld);
        }
        if self.recent.has_covering(began, tag) {
            return Some(WalkFault::Overtaken);
        }
        None
    }

    /// A transaction begins with the entry that the unit holds under a tag.
    pub(crate) fn begin(
        &mut self,
        unit: &Unit,
        tag: &Tag,
    ) -> Result<(Entry, Transaction), BeginFault>
        ensures begun { IsBeginAnswer (tracked_with unit.now self.old) tag.now
            (tracked_with unit.now self.new) result }
        ensures some { IfOk result (λ both. 0 < bits_of both.1) }
        ensures tracked { StaysTracked (tracked_with unit.now self.old)
            (tracked_with unit.now self.new) [] }
        ensures together { StaysTogether (tracked_with unit.now self.old)
            (tracked_with unit.now self.new) }
    {
        if !tag.is_block() {
            return Err(BeginFault::NotHeld);
        }
        let Some(entry) = unit.lookup(tag) else {
            return Err(BeginFault::NotHeld);
        };
        match self.begin_with(Used::Entry(*tag), entry.born) {
            Some(transaction) => Ok((entry, transaction)),
            None => Err(BeginFault::Full),
        }
    }

    /// A transaction begins with what a walk read that began after so many commands.
    pub(crate) fn begin_walked(
        &mut self,
        unit: &Unit,
        began: u64,
        tag: &Tag,
    ) -> Result<Transaction, BeginFault>
        ensures begun { IsBeginWalkedAnswer (tracked_with unit.now self.old) began tag.now
            (tracked_with unit.now self.new) result }
        ensures some { IfOk result (λ transaction. 0 < bits_of transaction) }
        ensures tracked { StaysTracked (tracked_with unit.now self.old)
            (tracked_with unit.now self.new) [] }
        ensures together { StaysTogether (tracked_with unit.now self.old)
            (tracked_with unit.now self.new) }
    {
        if !tag.is_block() {
            let fault = WalkFault::Refused(CacheFault::BadBlock);
            return Err(BeginFault::Walked(fault));
        }
        if let Some(fault) = self.refusal(unit, began, tag) {
            return Err(BeginFault::Walked(fault));
        }
        match self.begin_with(Used::Entry(*tag), began) {
            Some(transaction) => Ok(transaction),
            None => Err(BeginFault::Full),
        }
    }

    /// A walk of this number begins now, and a transaction that uses the tables, if a slot is free.
    pub(crate) fn begin_outstanding_walk(
        &mut self,
        unit: &Unit,
        walk: Walk,
    ) -> Option<(Walk, Transaction)>
        ensures begun { IsOutstandingWalk walk (tracked_with unit.now self.old)
            (tracked_with unit.now self.new) result }
        ensures some { IfSome result (λ both. 0 < bits_of both.1) }
        ensures tracked { StaysTracked (tracked_with unit.now self.old)
            (tracked_with unit.now self.new) [] }
        ensures together { StaysTogether (tracked_with unit.now self.old)
            (tracked_with unit.now self.new) }
    {
        let taken = unit.counts().taken();
        match self.begin_with(Used::Tables, taken) {
            Some(transaction) => Some((walk, transaction)),
            None => None,
        }
    }

    /// A transaction begins that uses this, if a slot is free.
    fn begin_with(&mut self, used: Used, born: u64) -> Option<Transaction>
        requires block { UsesBlock used }
        ensures begun { (unit : UnitValue) → IsBegunIfRoom (tracked_with unit self.old) used born
            (tracked_with unit self.new) result }
        ensures some { IfSome result (λ transaction. 0 < bits_of transaction) }
    {
        let number = self.next_number;
        let transaction = OutstandingTransaction {
            number,
            used,
            born,
            covered: false,
        };
        let slot = self.outstanding.insert(transaction)?;
        self.next_number = number_after(number);
        Some(Transaction { slot, number })
    }

    /// A transaction is over. Returns whether it was the last that a CMD_SYNC waits for.
    ///
    /// Errors, changing nothing: the token, if it isn't of a transaction that is outstanding here.
    pub(crate) fn end(&mut self, transaction: Transaction) -> Result<Ended, Transaction>
        ensures ended { (unit : UnitValue) → IsEndAnswer (tracked_with unit self.old) transaction
            (tracked_with unit self.new) result }
        ensures tracked { (unit : UnitValue) → StaysTracked (tracked_with unit self.old)
            (tracked_with unit self.new) [] }
        ensures together { (unit : UnitValue) → StaysTogether (tracked_with unit self.old)
            (tracked_with unit self.new) }
    {
        if unit_of(transaction.number) != unit_of(self.next_number) {
            return Err(transaction);
        }
        match self.outstanding.get(transaction.slot) {
            Some(outstanding) if outstanding.number == transaction.number => {
                let Transaction { slot, number: _ } = transaction;
                let covered = outstanding.covered;
                self.outstanding.remove(slot, outstanding);
                let left = self.outstanding.covered();
                Ok(Ended::of(covered, left))
            }
            _ => Err(transaction),
        }
    }

    /// How many transactions are outstanding.
    pub(crate) fn counts(&self) -> OutstandingCounts
        ensures { AreCountsOf self.now.outstanding result }
    {
        self.outstanding.counts()
    }
}
