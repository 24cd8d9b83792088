//! A sender that has an open reservation, with its batch and its share of its own ring.
ghost use Rattle.std.specs.Prelude.{◌≡◌, Some};
ghost use Rattle.std.specs.Arc.{arc_value};
ghost use Rattle.smmuq_c.specs.Reserving.{IsPublished};

use crate::seated_sender::SeatedSender;
use batch::Batch;
use ring::{Closing, Ring, UnboundReservation};
use std::marker::Model;
use std::sync::Arc;

/// An open reservation with its batch and its ring. Dropping it publishes it first, so that nothing is lost.
pub(crate) struct SeatedReservation {
    ring: Arc<Ring>,
    /// The sender's, with the batch in it.
    room: Box<Option<Batch>>,
    reservation: UnboundReservation<Closing>,
}

impl Model for SeatedReservation {
    ghost use Rattle.std.specs.Prelude.{◌≡◌, Some};
    ghost use Rattle.std.specs.Arc.{arc_value};
    ghost use Rattle.ring.specs.sender.Reservations.{ReservationValue};

    ghost Value = { ReservationValue };

    ghost view = { λ s. s.reservation };

    ghost invariant = { λ s. (s.reservation.ring ≡ arc_value s.ring)
        × (s.room.value ≡ Some s.reservation.body) };
}

impl SeatedReservation {
    pub(crate) fn new(
        ring: Arc<Ring>,
        room: Box<Option<Batch>>,
        reservation: UnboundReservation<Closing>,
    ) -> SeatedReservation
        requires ring { reservation.ring ≡ arc_value ring }
        requires batch { room.value ≡ Some reservation.body }
        ensures { result ≡ reservation }
    {
        SeatedReservation {
            ring,
            room,
            reservation,
        }
    }

    /// Writes and publishes the batch. Returns the sender, and the number of its CMD_SYNC.
    pub(crate) fn publish(self) -> (SeatedSender, u32)
        ensures { IsPublished result.1 self result.0 }
    {
        let SeatedReservation {
            ring,
            room,
            reservation,
        } = self;
        let Some(batch) = &*room else {
            unreachable!();
        };
        let (sender, receipt) = reservation.bind(batch).publish(&ring);
        (SeatedSender::new(ring, sender, room), receipt.number())
    }
}

impl Drop for SeatedReservation {
    fn drop(self) {
        drop(self.publish());
    }
}
