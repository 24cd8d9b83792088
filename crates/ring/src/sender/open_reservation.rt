//! Slots that a sender has reserved, to be written and handed over.
ghost use Rattle.std.specs.Prelude.{◌≡◌, ◌+◌, ◌-◌, ◌<◌, ◌≤◌, Some, slice_get, []};
ghost use Rattle.qindex.specs.Positions.{size};
ghost use Rattle.ring.specs.Runs.{reserved_length, IsSettled};
ghost use Rattle.ringcore.specs.memory.StepLaws.{reserved_commands};
ghost use Rattle.ring.specs.sender.GoingOn.{ReservationGrew, GrewHandingOver};
ghost use Rattle.ring.specs.sender.Reservations.{IsWrittenUpTo, IsFlippedUpTo, IsReceiptOf, reserved_number};
ghost use Rattle.ring.specs.sender.Publishing.{wrote_one, flipped_one, flipped_left, published, sender_of, ReservesNone};

use crate::ring::Ring;
use crate::sender::Sender;
use crate::sender::batch_kind::{Bare, BatchKind, Closing};
use crate::sender::batch_length::batch_length;
use crate::sender::receipt::Receipt;
use crate::sender::tally::Tally;
use crate::table::Port;
use batch::BorrowedBatch;
use cmdcodec::{Raw, closing_sync, encode};
use qindex::Index;
use ringcore::laws::sender_trail;
use ringcore::{Half, shared_word};
use std::marker::{Brand, Model, PhantomData};

/// Slots reserved for a batch and its closing CMD_SYNC. It must be spent by `publish`.
pub type Reservation<'b> = OpenReservation<'b, Closing>;

/// Slots reserved for a batch without a closing CMD_SYNC (own). It must be spent by `publish`.
pub type BareReservation<'b> = OpenReservation<'b, Bare>;

/// Slots reserved for a batch of this kind. It borrows the commands, so that each is copied only into its
/// slot. It must be spent by `hand_over` or `publish`.
pub struct OpenReservation<'b, K: BatchKind> {
    pub(crate) port: Port,
    /// The sender's tally, including this batch.
    pub(crate) tally: Tally,
    pub(crate) batch: BorrowedBatch<'b>,
    /// The index of the first slot.
    pub(crate) start: Index,
    pub(crate) written: u32,
    pub(crate) flipped: u32,
    pub(crate) kind: PhantomData<K>,
}

impl<'b, K: BatchKind> Model for OpenReservation<'b, K> {
    ghost use Rattle.ring.specs.sender.Reservations.{ReservationValue, IsOpen};

    ghost Value = { ReservationValue };

    ghost view = { λ r. record { ring = r.port.ring; sender = r.tally.sender; body = r.batch; closes = K.closes; trail = r.port.trail; history = r.port.history; written = r.written; flipped = r.flipped } };

    ghost invariant = { λ r. IsOpen r.port r.tally r.batch K.closes r.start r.written r.flipped };
}

impl<'b, K: BatchKind> OpenReservation<'b, K> {
    /// Writes both halves of the next slot. At least one must be left (`unwritten`).
    pub fn write_next(&mut self, ring: &Ring)
        requires ring { self.old.ring ≡ ring.now }
        requires left { self.old.written < reserved_length self.old.trail }
        ensures new { record self.new { history = [] }
            ≡ wrote_one (record self.old { history = [] }) }
        ensures history { ReservationGrew self.old self.new }
    {
        let raw = self.next_command();
        let slot = self.start.forward(self.written);
        self.port
            .write::<Brand>(ring, self.tally.sender, slot, self.written, Half::Lo, raw);
        self.port
            .write::<Brand>(ring, self.tally.sender, slot, self.written, Half::Hi, raw);
        self.written += 1;
    }

    /// The command for the next slot: one of the body, or the closing CMD_SYNC after it.
    fn next_command(&self) -> Raw
        requires { self.now.written < reserved_length self.now.trail }
        ensures { slice_get (reserved_commands self.now.sender self.now.trail) self.now.written
            ≡ Some result }
    {
        match self.batch.get(self.written as usize) {
            Some(raw) => raw,
            None => encode(&closing_sync(self.tally.sender, self.tally.numbers)),
        }
    }

    /// Flips the flag of the next slot that is written. At least one must be left (`unflipped`).
    pub fn flip_next(&mut self, ring: &Ring)
        requires ring { self.old.ring ≡ ring.now }
        requires left { self.old.flipped < self.old.written }
        ensures new { record self.new { history = [] }
            ≡ flipped_one (record self.old { history = [] }) }
        ensures history { ReservationGrew self.old self.new }
    {
        let slot = self.start.forward(self.flipped);
        self.port
            .flip::<Brand>(ring, self.tally.sender, slot, self.flipped, 1);
        self.flipped += 1;
    }

    /// Flips the slots that are written and not flipped, as far as their flags are in one word.
    fn flip_left(&mut self, ring: &Ring)
        requires { self.old.ring ≡ ring.now }
        ensures new { record self.new { history = [] }
            ≡ flipped_left (record self.old { history = [] }) }
        ensures history { ReservationGrew self.old self.new }
    {
        if self.flipped < self.written {
            let slot = self.start.forward(self.flipped);
            let count = shared_word(slot).min(self.written - self.flipped);
            self.port
                .flip::<Brand>(ring, self.tally.sender, slot, self.flipped, count);
            self.flipped += count;
        }
    }

    /// Writes and flips what is left, in order, so that the consumer may take the whole batch. For either
    /// kind it returns the sender, and no receipt.
    pub fn hand_over(self, ring: &Ring) -> Sender
        requires { self.ring ≡ ring.now }
        ensures sender { record result { history = [] }
            ≡ sender_of (published (record self.entry { history = [] })) }
        ensures settled { IsSettled result.trail }
        ensures history { GrewHandingOver self.entry result }
        ensures ring { result.ring ≡ self.entry.ring }
        ensures id { result.number ≡ self.entry.sender }
        ensures batches { ReservesNone self.entry.trail result.trail }
    {
        // Both calls are for their clauses: two flag words hold all flags of a batch.
        self.len();
        sender_trail();
        let mut reservation = self;
        for done in 0..reservation.unwritten() {
            reservation.write_next(ring);
        }
        reservation.flip_left(ring);
        reservation.flip_left(ring);
        reservation.into_sender()
    }

    /// Returns the sender once all slots are flipped.
    fn into_sender(self) -> Sender
        requires { self.flipped ≡ reserved_length self.trail }
        ensures sender { result ≡ sender_of self.entry }
        ensures settled { IsSettled result.trail }
    {
        let OpenReservation {
            port,
            tally,
            batch: _,
            start: _,
            written: _,
            flipped: _,
            kind: _,
        } = self;
        Sender { port, tally }
    }

    /// Returns the number of its batch, or `None` if no CMD_SYNC closes it.
    pub fn number(&self) -> Option<u32>
        ensures { result ≡ reserved_number self.now.trail }
    {
        if K::closes() {
            Some(self.tally.numbers)
        } else {
            None
        }
    }

    /// Returns how many slots it has.
    fn len(&self) -> u32
        ensures value { result ≡ reserved_length self.now.trail }
        ensures few { result ≤ 64 }
        ensures fits { result ≤ size self.now.ring.made_with.geometry }
        ensures within { self.now.written ≤ result }
        ensures behind { self.now.flipped ≤ self.now.written }
    {
        batch_length::<K>(&self.batch)
    }

    /// Returns how many slots aren't written.
    pub fn unwritten(&self) -> u32
        ensures value { result + self.now.written ≡ reserved_length self.now.trail }
        ensures written { IsWrittenUpTo self.now.written self.now.trail }
    {
        self.len() - self.written
    }

    /// Returns how many slots are written and not flipped.
    pub fn unflipped(&self) -> u32
        ensures value { result + self.now.flipped ≡ self.now.written }
        ensures flipped { IsFlippedUpTo self.now.flipped self.now.trail }
        ensures written { IsWrittenUpTo self.now.written self.now.trail }
    {
        self.written - self.flipped
    }
}

impl<'b> OpenReservation<'b, Closing> {
    /// Writes and flips what is left, in order, so that the consumer may take the whole batch. The receipt
    /// names its CMD_SYNC.
    pub fn publish(self, ring: &Ring) -> (Sender, Receipt)
        requires { self.ring ≡ ring.now }
        ensures sender { record result.0 { history = [] }
            ≡ sender_of (published (record self.entry { history = [] })) }
        ensures settled { IsSettled result.0.trail }
        ensures history { GrewHandingOver self.entry result.0 }
        ensures ring { result.0.ring ≡ self.entry.ring }
        ensures id { result.0.number ≡ self.entry.sender }
        ensures batches { ReservesNone self.entry.trail result.0.trail }
        ensures receipt { IsReceiptOf self.entry result.1 }
    {
        let receipt = Receipt {
            sender: self.tally.sender,
            number: self.tally.numbers,
        };
        (self.hand_over(ring), receipt)
    }
}

impl<'b> OpenReservation<'b, Bare> {
    /// Writes and flips what is left, in order, so that the consumer may take the whole batch.
    pub fn publish(self, ring: &Ring) -> Sender
        requires { self.ring ≡ ring.now }
        ensures sender { record result { history = [] }
            ≡ sender_of (published (record self.entry { history = [] })) }
        ensures settled { IsSettled result.trail }
        ensures history { GrewHandingOver self.entry result }
        ensures ring { result.ring ≡ self.entry.ring }
        ensures id { result.number ≡ self.entry.sender }
        ensures batches { ReservesNone self.entry.trail result.trail }
    {
        self.hand_over(ring)
    }
}
