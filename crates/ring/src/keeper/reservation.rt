//! What is left of a reservation while the keeper has its sender's seat.
ghost use Rattle.std.specs.Prelude.{◌≡◌, ◌<◌, Some, None};
ghost use Rattle.ring.specs.Runs.{Sender as SenderOf, trail_of};
ghost use Rattle.ring.specs.table.{Grew};
ghost use Rattle.ring.specs.sender.Reservations.{number_when};
ghost use Rattle.ring.specs.Keepers.{own_reservation, has_lent, has_back, Adds, IsNews, KeepsOthers, IsIdleReservation, IsLeftOf};

use crate::keeper::Keeper;
use crate::ring::Ring;
use crate::sender::{BatchKind, OpenReservation, Tally};
use batch::BorrowedBatch;
use qindex::Index;
use std::marker::{Model, PhantomData};

/// A reservation while the keeper has its sender's seat. Its batch isn't in it: whoever lends it again keeps
/// that.
#[derive(Clone, Copy)]
pub struct IdleReservation {
    /// The sender's tally, including this batch.
    tally: Tally,
    closes: bool,
    /// The index of the first slot.
    start: Index,
    written: u32,
    flipped: u32,
}

impl Model for IdleReservation {
    ghost use Rattle.ring.specs.Keepers.{IdleReservationValue};

    ghost Value = { IdleReservationValue };

    ghost view = { λ i. record { tally = i.tally; closes = i.closes; start = i.start; written = i.written; flipped = i.flipped } };

    ghost inverse = { λ r. record { tally = r.tally; closes = r.closes; start = r.start; written = r.written; flipped = r.flipped } };
}

impl IdleReservation {
    /// Returns its sender's number, from 0.
    pub fn id(&self) -> u32
        ensures { result ≡ self.now.tally.sender }
    {
        self.tally.sender
    }

    /// Whether it closes with a CMD_SYNC. It is lent as a reservation of that kind.
    pub fn closes(&self) -> bool
        ensures { result ≡ self.now.closes }
    {
        self.closes
    }

    /// Returns the index of its first slot.
    pub fn first(&self) -> Index
        ensures { result ≡ self.now.start }
    {
        self.start
    }

    /// Returns the number of its batch, or `None` if no CMD_SYNC closes it.
    pub fn number(&self) -> Option<u32>
        ensures { result ≡ number_when self.now.closes self.now.tally.numbers }
    {
        if self.closes {
            Some(self.tally.numbers)
        } else {
            None
        }
    }
}

impl Keeper {
    /// Lends a reservation its sender's seat, with a batch of the commands that it was made with, so that it
    /// is a reservation like any other, of the same kind as before.
    pub fn lend_reservation<'b, K: BatchKind>(
        &mut self,
        ring: &Ring,
        idle: IdleReservation,
        batch: BorrowedBatch<'b>,
    ) -> OpenReservation<'b, K>
        requires ring { self.old.ring ≡ ring.now }
        requires whole { self.old.lent ≡ None }
        requires known { idle.tally.sender < self.old.ring.made_with.senders }
        requires closes { idle.closes ≡ K.closes }
        requires idle { IsIdleReservation self.old batch idle }
        ensures reservation { result ≡ own_reservation batch.entry idle self.old }
        ensures keeper { self.new ≡ has_lent (SenderOf idle.tally.sender) self.old }
    {
        let IdleReservation {
            tally,
            closes: _,
            start,
            written,
            flipped,
        } = idle;
        let port = self.lend_to_sender(ring, tally.sender);
        OpenReservation {
            port,
            tally,
            batch,
            start,
            written,
            flipped,
            kind: PhantomData,
        }
    }

    /// Takes the seat of a reservation's sender back, and knows the whole run again. The batch is no longer borrowed.
    pub fn take_reservation<K: BatchKind>(
        &mut self,
        ring: &Ring,
        reservation: OpenReservation<'_, K>,
    ) -> IdleReservation
        requires ring { self.old.ring ≡ ring.now }
        requires own { reservation.ring ≡ ring.now }
        requires lent { self.old.lent ≡ Some (SenderOf reservation.sender) }
        ensures keeper { self.new
            ≡ has_back (SenderOf reservation.entry.sender) reservation.entry.trail self.old }
        ensures adds { Adds (SenderOf reservation.entry.sender) reservation.entry.trail self.old.run
            self.new.run }
        ensures grew { Grew (SenderOf reservation.entry.sender)
            (trail_of (SenderOf reservation.entry.sender) self.old.run) reservation.entry.trail
            self.old.run self.new.run }
        ensures news { IsNews (SenderOf reservation.entry.sender) reservation.entry.trail
            reservation.entry.history self.old.run self.new.run }
        ensures others { KeepsOthers (SenderOf reservation.entry.sender) self.old self.new }
        ensures left { IsLeftOf reservation.entry result }
        ensures closes { result.closes ≡ K.closes }
        ensures idle { IsIdleReservation self.new reservation.entry.body result }
    {
        let OpenReservation {
            port,
            tally,
            batch: _,
            start,
            written,
            flipped,
            kind: _,
        } = reservation;
        self.take_back(ring, port);
        IdleReservation {
            tally,
            closes: K::closes(),
            start,
            written,
            flipped,
        }
    }
}
