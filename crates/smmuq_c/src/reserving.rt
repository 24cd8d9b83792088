//! The exports that reserve a batch and publish it by a later call.
ghost use Rattle.std.specs.Prelude.{◌≡◌, ℕ, IfOk, IfErr};
ghost use Rattle.smmuq_c.specs.declared.status.Status.TheVariants.{Done};
ghost use Rattle.smmuq_c.specs.Calls.{HasCalled};
ghost use Rattle.smmuq_c.specs.Reserving.{HasReserved, HasPublished};
ghost use Rattle.smmuq_c.specs.Kept.{KeptUnlessDone};

use crate::handle::Handle;
use crate::object::Object;
use crate::status::Status;
use cmdcodec::Raw;
use core::mem::replace_with;

/// Reserves the slots of a batch of 1 to 63 commands and its closing CMD_SYNC, and keeps the commands: nothing of it is
/// written until it is published. Tries and refusals are those of `smmuq_send`; `OPEN_RESERVATION` if the sender has one
/// already.
#[unsafe(no_mangle)]
pub extern "C" fn smmuq_reserve(sender: &mut Handle, commands: &[Raw], tries: u32) -> u32
    ensures { HasCalled (HasReserved commands.now tries) sender.old sender.new result }
{
    let Some(object) = sender.object_mut() else {
        return Status::EmptyHandle.number();
    };
    replace_with(object, (commands, tries), reserve).number()
}

fn reserve(object: Object, asked: (&[Raw], u32)) -> (Object, Status)
    ensures { HasReserved asked.entry.0.now asked.entry.1 object result.0 result.1 }
{
    let (commands, tries) = asked;
    match object {
        Object::Sender(sender) => match sender.reserve(commands, tries) {
            Ok(reservation) => (Object::Reservation(reservation), Status::Done),
            Err((sender, status)) => (Object::Sender(sender), status),
        },
        Object::Reservation(seat) => (Object::Reservation(seat), Status::OpenReservation),
        other => (other, Status::WrongHandle),
    }
}

/// Writes and publishes what the sender reserved, and tells the number of its CMD_SYNC. `NO_RESERVATION` if nothing is
/// reserved.
#[unsafe(no_mangle)]
pub extern "C" fn smmuq_publish(sender: &mut Handle, number: &mut u32) -> u32
    ensures called { HasCalled (HasPublished number.new) sender.old sender.new result }
    ensures kept { KeptUnlessDone result number.old number.new }
{
    let Some(object) = sender.object_mut() else {
        return Status::EmptyHandle.number();
    };
    let published = replace_with(object, (), publish);
    match published {
        Ok(told) => {
            *number = told;
            Status::Done.number()
        }
        Err(status) => status.number(),
    }
}

fn publish(object: Object, _nothing: ()) -> (Object, Result<u32, Status>)
    ensures published { IfOk result.1 (λ told. HasPublished told object result.0 Done) }
    ensures refused { IfErr result.1 (λ status. (told : ℕ)
        → HasPublished told object result.0 status) }
{
    match object {
        Object::Reservation(seat) => {
            let (sender, number) = seat.publish();
            (Object::Sender(sender), Ok(number))
        }
        Object::Sender(sender) => (Object::Sender(sender), Err(Status::NoReservation)),
        other => (other, Err(Status::WrongHandle)),
    }
}
