//! What is expected of a sender that sends a batch or reserves slots for it.
ghost use Rattle.std.specs.Prelude.{◌≡◌, ◌+◌};
ghost use Rattle.ringcore.specs.world.Trails.{IsSettled, reserved_length};

use crate::sender_calls::send;
use batch::Batch;
use ring::{
    BareReservation, BatchKind, Cause, OpenReservation, Receipt, Reservation, Ring, Sender,
};
use std::process::Abort;

/// Sends a batch in one try.
pub fn send_at_once(
    rt: &impl Abort,
    ring: &Ring,
    sender: Sender,
    batch: &Batch,
) -> (Sender, Receipt)
    requires { sender.ring ≡ ring.now }
    ensures ring { result.0.ring ≡ ring.now }
    ensures id { result.0.number ≡ sender.number }
    ensures settled { IsSettled result.0.trail }
    ensures receipt { result.1.sender ≡ sender.number }
{
    match sender.send(ring, batch, 1) {
        Ok(sent) => sent,
        Err(_) => panic!(rt; "the batch is refused"),
    }
}

/// Reserves slots for a batch and its closing CMD_SYNC.
pub fn reserve<'b>(
    rt: &impl Abort,
    ring: &Ring,
    sender: Sender,
    batch: &'b Batch,
) -> Reservation<'b>
    requires { sender.ring ≡ ring.now }
    ensures ring { result.ring ≡ ring.now }
    ensures id { result.sender ≡ sender.number }
    ensures body { result.body ≡ batch.now }
{
    match sender.reserve(ring, batch) {
        Ok(reservation) => reservation,
        Err(_) => panic!(rt; "the batch is refused"),
    }
}

/// Reserves slots for a bare batch.
pub fn reserve_bare<'b>(
    rt: &impl Abort,
    ring: &Ring,
    sender: Sender,
    batch: &'b Batch,
) -> BareReservation<'b>
    requires { sender.ring ≡ ring.now }
    ensures { result.ring ≡ ring.now }
{
    match sender.reserve_bare(ring, batch) {
        Ok(reservation) => reservation,
        Err(_) => panic!(rt; "the batch is refused"),
    }
}

/// Expects a receipt to name this sender and number.
pub fn expect_receipt(rt: &impl Abort, receipt: &Receipt, sender: u32, number: u32) {
    assert_eq!(rt; (receipt.sender(), receipt.number()), (sender, number));
}

/// Expects that many slots not to be written, and that many to be written and not flipped.
pub fn expect_slots<K: BatchKind>(
    rt: &impl Abort,
    reservation: &OpenReservation<'_, K>,
    unwritten: u32,
    unflipped: u32,
)
    ensures unwritten { unwritten + reservation.now.written ≡ reserved_length reservation.now.trail }
    ensures unflipped { unflipped + reservation.now.flipped ≡ reservation.now.written }
{
    assert_eq!(rt;
        (reservation.unwritten(), reservation.unflipped()),
        (unwritten, unflipped)
    );
}

/// Expects a batch to be refused for this cause.
pub fn expect_refused(rt: &impl Abort, ring: &Ring, sender: Sender, batch: &Batch, cause: Cause)
    requires { sender.ring ≡ ring.now }
{
    let (_sender, sent) = send(ring, sender, batch);
    assert_eq!(rt; sent, Err(cause));
}
