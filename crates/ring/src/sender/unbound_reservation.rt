//! An open reservation while its batch is kept elsewhere.
ghost use Rattle.std.specs.Prelude.{◌≡◌, Some};
ghost use Rattle.ring.specs.sender.Reservations.{reserved_number};

use crate::sender::batch_kind::{BatchKind, Closing};
use crate::sender::open_reservation::OpenReservation;
use crate::sender::tally::Tally;
use crate::table::Port;
use batch::Batch;
use qindex::Index;
use std::marker::{Model, PhantomData};

/// An open reservation that doesn't borrow its batch, so that both can be kept and handed to another thread.
/// If it is dropped, what it hasn't flipped stays reserved forever, and the consumer never gets past it.
#[derive(Drop)]
pub struct UnboundReservation<K: BatchKind> {
    port: Port,
    /// The sender's tally, including this batch.
    tally: Tally,
    /// The index of the first slot.
    start: Index,
    written: u32,
    flipped: u32,
    kind: PhantomData<K>,
}

impl<K: BatchKind> Model for UnboundReservation<K> {
    ghost use Rattle.ring.specs.sender.Reservations.{ReservationValue, IsOpen, reserved_body};

    ghost Value = { ReservationValue };

    ghost view = { λ r. record { ring = r.port.ring; sender = r.tally.sender; body = reserved_body r.port.trail; closes = K.closes; trail = r.port.trail; history = r.port.history; written = r.written; flipped = r.flipped } };

    ghost invariant = { λ r. IsOpen r.port r.tally (reserved_body r.port.trail) K.closes r.start r.written r.flipped };
}

impl<'b, K: BatchKind> OpenReservation<'b, K> {
    /// Ends the loan of the batch. It takes no step.
    pub fn unbind(self) -> UnboundReservation<K>
        ensures { result ≡ self.entry }
    {
        let OpenReservation {
            port,
            tally,
            batch: _,
            start,
            written,
            flipped,
            kind,
        } = self;
        UnboundReservation {
            port,
            tally,
            start,
            written,
            flipped,
            kind,
        }
    }
}

impl<K: BatchKind> UnboundReservation<K> {
    /// Becomes the open reservation again, with a batch of the commands that it was made with. It takes no
    /// step.
    pub fn bind<'b>(self, batch: &'b Batch) -> OpenReservation<'b, K>
        requires { batch.now ≡ self.body }
        ensures { result ≡ self }
    {
        let UnboundReservation {
            port,
            tally,
            start,
            written,
            flipped,
            kind,
        } = self;
        OpenReservation {
            port,
            tally,
            batch: batch.as_borrowed(),
            start,
            written,
            flipped,
            kind,
        }
    }

    /// Returns its sender's number, from 0.
    pub fn id(&self) -> u32
        ensures { result ≡ self.now.sender }
    {
        self.tally.sender
    }
}

impl UnboundReservation<Closing> {
    /// Returns the number of its CMD_SYNC, from 1, which its receipt will name.
    pub fn number(&self) -> u32
        ensures { reserved_number self.now.trail ≡ Some result }
    {
        self.tally.numbers
    }
}
