//! A sender with its share of its own ring.
ghost use Rattle.std.specs.Prelude.{◌≡◌, IfOk, IfErr, OnOk, Some};
ghost use Rattle.std.specs.Arc.{arc_value};
ghost use Rattle.batch.specs.Refusals.{unless, list_refusal};
ghost use Rattle.smmuq_c.specs.Reserving.{IsOpened, IsUnreserved};
ghost use Rattle.smmuq_c.specs.Sends.{HasSent, HasSentBare, HasTold, HasToldLeft, HasClosed, HasLookedFor};
ghost use Rattle.smmuq_c.specs.Kept.{IsKept};

use crate::seated_reservation::SeatedReservation;
use crate::status::Status;
use crate::words::ControlWords;
use batch::{Batch, BatchBuffer, BatchFault};
use cmdcodec::Raw;
use ring::{Closing, Refused, Ring, Sender};
use std::alloc::{AllocError, Global};
use std::marker::Model;
use std::sync::Arc;

/// A sender with its ring.
#[derive(Drop)]
pub(crate) struct SeatedSender {
    ring: Arc<Ring>,
    /// It is lent to a send, and comes back.
    sender: Option<Sender>,
    /// For the batch of a reservation: a kilobyte, which stays where it is.
    room: Box<Option<Batch>>,
}

impl Model for SeatedSender {
    ghost use Rattle.std.specs.Arc.{arc_value};
    ghost use Rattle.ring.specs.sender.Senders.{SenderValue};
    ghost use Rattle.smmuq_c.specs.Seats.{sender_in, IsSeated};

    ghost Value = { SenderValue };

    ghost view = { λ s. sender_in s.sender };

    ghost invariant = { λ s. IsSeated (arc_value s.ring) s.sender };
}

impl SeatedSender {
    pub(crate) fn new(ring: Arc<Ring>, sender: Sender, room: Box<Option<Batch>>) -> SeatedSender
        requires { sender.ring ≡ arc_value ring }
        ensures { result ≡ sender }
    {
        SeatedSender {
            ring,
            sender: Some(sender),
            room,
        }
    }

    /// Reserves a batch of these commands with its closing CMD_SYNC, in at most `tries` tries, 0 meaning 1.
    #[inline(never)]
    pub(crate) fn reserve(
        self,
        commands: &[Raw],
        tries: u32,
    ) -> Result<SeatedReservation, (SeatedSender, Status)>
        ensures opened { IfOk result (λ reservation. IsOpened commands.now tries self reservation) }
        ensures refused { IfErr result (λ e. IsUnreserved commands.now tries self e.0 e.1) }
    {
        let SeatedSender { ring, sender, room } = self;
        let mut room = room;
        if let Err(fault) = fill(&mut room, commands) {
            let seat = SeatedSender { ring, sender, room };
            return Err((seat, Status::Batch(fault)));
        }
        let sender = sender.unwrap();
        let Some(batch) = &*room else {
            unreachable!();
        };
        match sender.reserve_within::<Closing>(&ring, batch.as_borrowed(), tries.max(1)) {
            Ok(reservation) => {
                let reservation = reservation.unbind();
                Ok(SeatedReservation::new(ring, room, reservation))
            }
            Err(Refused { sender, cause }) => Err((
                SeatedSender::new(ring, sender, room),
                Status::Refused(cause),
            )),
        }
    }

    /// Sends a batch of these commands with its closing CMD_SYNC, in at most `tries` tries, 0 meaning 1.
    pub(crate) fn send(&mut self, commands: &[Raw], tries: u32, number: &mut u32) -> Status
        ensures sent { HasSent commands.now tries number.new self.old self.new result }
        ensures kept { IsKept result number.old number.new }
    {
        let mut buffer = BatchBuffer::new();
        let batch = match buffer.copied(commands) {
            Ok(batch) => batch,
            Err(fault) => return Status::Batch(fault),
        };
        let sender = self.sender.take().unwrap();
        match sender.send_borrowed(&self.ring, batch, tries.max(1)) {
            Ok((sender, receipt)) => {
                self.sender = Some(sender);
                *number = receipt.number();
                Status::Done
            }
            Err(refused) => {
                self.sender = Some(refused.sender);
                Status::Refused(refused.cause)
            }
        }
    }

    /// The same without a CMD_SYNC.
    pub(crate) fn send_bare(&mut self, commands: &[Raw], tries: u32) -> Status
        ensures { HasSentBare commands.now tries self.old self.new result }
    {
        let mut buffer = BatchBuffer::new();
        let batch = match buffer.copied(commands) {
            Ok(batch) => batch,
            Err(fault) => return Status::Batch(fault),
        };
        let sender = self.sender.take().unwrap();
        match sender.send_borrowed_bare(&self.ring, batch, tries.max(1)) {
            Ok(sender) => {
                self.sender = Some(sender);
                Status::Done
            }
            Err(refused) => {
                self.sender = Some(refused.sender);
                Status::Refused(refused.cause)
            }
        }
    }

    pub(crate) fn done_up_to(&mut self, number: &mut u32) -> Status
        ensures told { HasTold number.new self.old self.new result }
        ensures done { result ≡ Status.Done }
    {
        let SeatedSender { ring, sender, .. } = self;
        let Some(sender) = sender else {
            unreachable!();
        };
        *number = sender.done_up_to(ring);
        Status::Done
    }

    /// Tells how many batches it may still reserve.
    pub(crate) fn left(&mut self, batches: &mut u32) -> Status
        ensures told { HasToldLeft batches.new self.old self.new result }
        ensures done { result ≡ Status.Done }
    {
        let SeatedSender { ring, sender, .. } = self;
        let Some(sender) = sender else {
            unreachable!();
        };
        *batches = sender.batches_left(ring);
        Status::Done
    }

    pub(crate) fn close(&mut self) -> Status
        ensures { HasClosed self.old self.new result }
    {
        let SeatedSender { ring, sender, .. } = self;
        let Some(sender) = sender else {
            unreachable!();
        };
        sender.close(ring);
        Status::Done
    }

    pub(crate) fn look(&mut self, told: &mut ControlWords) -> Status
        ensures looked { HasLookedFor told.new self.old self.new result }
        ensures done { result ≡ Status.Done }
    {
        let SeatedSender { ring, sender, .. } = self;
        let Some(sender) = sender else {
            unreachable!();
        };
        *told = ControlWords::of(&sender.look(ring));
        Status::Done
    }
}

/// Makes room for a batch, with none in it.
#[inline(never)]
pub(crate) fn new_room(alloc: Global) -> Result<Box<Option<Batch>>, AllocError> {
    Ok(Box::new(alloc, None)?)
}

/// Makes a batch of these commands in a room. It isn't inlined, so that what it moves is off the stack when the batch is
/// reserved.
#[inline(never)]
fn fill(room: &mut Option<Batch>, commands: &[Raw]) -> Result<(), BatchFault>
    ensures answer { result ≡ unless (list_refusal commands.now) tt }
    ensures filled { OnOk result (room.new ≡ Some commands.now) }
{
    *room = Some(Batch::from_raws(commands)?);
    Ok(())
}
