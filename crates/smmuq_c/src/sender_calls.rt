//! The exports of a sender.
ghost use Rattle.smmuq_c.specs.Calls.{HasCalled, OfSender};
ghost use Rattle.smmuq_c.specs.Exports.{Sends};
ghost use Rattle.smmuq_c.specs.Sends.{HasSentBare, HasTold, HasToldLeft, HasClosed, HasLookedFor};
ghost use Rattle.smmuq_c.specs.Kept.{IsKept, KeptUnlessDone};

use crate::handle::Handle;
use crate::object::Object;
use crate::status::Status;
use crate::words::ControlWords;
use cmdcodec::Raw;

/// Sends a batch of 1 to 63 commands with its closing CMD_SYNC, and tells the number of that. If the ring has too
/// little room or another came first it tries again, up to `tries` times in all, 0 meaning 1. B5, B1 or B2 if the
/// commands are no batch; Q1 to Q5 for the last try. Then nothing was reserved.
#[unsafe(no_mangle)]
pub extern "C" fn smmuq_send(
    sender: &mut Handle,
    commands: &[Raw],
    tries: u32,
    number: &mut u32,
) -> u32
    ensures called { HasCalled (Sends commands.now tries number.new) sender.old sender.new result }
    ensures kept { KeptUnlessDone result number.old number.new }
{
    let Some(object) = sender.object_mut() else {
        return Status::EmptyHandle.number();
    };
    send(object, commands, tries, number).number()
}

fn send(object: &mut Object, commands: &[Raw], tries: u32, number: &mut u32) -> Status
    ensures called { Sends commands.now tries number.new object.old object.new result }
    ensures kept { IsKept result number.old number.new }
{
    match object {
        Object::Sender(sender) => sender.send(commands, tries, number),
        Object::Reservation(_) => Status::OpenReservation,
        Object::Unit(_)
        | Object::Engine(_)
        | Object::Consumer(_)
        | Object::Guest(_)
        | Object::Forwarder(_) => Status::WrongHandle,
    }
}

/// The same without a CMD_SYNC.
#[unsafe(no_mangle)]
pub extern "C" fn smmuq_send_bare(sender: &mut Handle, commands: &[Raw], tries: u32) -> u32
    ensures { HasCalled (OfSender (HasSentBare commands.now tries)) sender.old sender.new result }
{
    let Some(object) = sender.object_mut() else {
        return Status::EmptyHandle.number();
    };
    send_bare(object, commands, tries).number()
}

fn send_bare(object: &mut Object, commands: &[Raw], tries: u32) -> Status
    ensures { OfSender (HasSentBare commands.now tries) object.old object.new result }
{
    match object {
        Object::Sender(sender) => sender.send_bare(commands, tries),
        Object::Reservation(_) => Status::OpenReservation,
        Object::Unit(_)
        | Object::Engine(_)
        | Object::Consumer(_)
        | Object::Guest(_)
        | Object::Forwarder(_) => Status::WrongHandle,
    }
}

/// Tells the number of the sender's last CMD_SYNC that completed, or 0 if none did.
#[unsafe(no_mangle)]
pub extern "C" fn smmuq_done_up_to(sender: &mut Handle, number: &mut u32) -> u32
    ensures called { HasCalled (OfSender (HasTold number.new)) sender.old sender.new result }
    ensures kept { KeptUnlessDone result number.old number.new }
{
    let Some(object) = sender.object_mut() else {
        return Status::EmptyHandle.number();
    };
    done_up_to(object, number).number()
}

fn done_up_to(object: &mut Object, number: &mut u32) -> Status
    ensures called { OfSender (HasTold number.new) object.old object.new result }
    ensures kept { IsKept result number.old number.new }
{
    match object {
        Object::Sender(sender) => sender.done_up_to(number),
        Object::Reservation(_) => Status::OpenReservation,
        Object::Unit(_)
        | Object::Engine(_)
        | Object::Consumer(_)
        | Object::Guest(_)
        | Object::Forwarder(_) => Status::WrongHandle,
    }
}

/// Tells how many batches the sender may still reserve, with a CMD_SYNC or without. After the last, the answer is Q5.
#[unsafe(no_mangle)]
pub extern "C" fn smmuq_left(sender: &mut Handle, batches: &mut u32) -> u32
    ensures called { HasCalled (OfSender (HasToldLeft batches.new)) sender.old sender.new result }
    ensures kept { KeptUnlessDone result batches.old batches.new }
{
    let Some(object) = sender.object_mut() else {
        return Status::EmptyHandle.number();
    };
    left(object, batches).number()
}

fn left(object: &mut Object, batches: &mut u32) -> Status
    ensures called { OfSender (HasToldLeft batches.new) object.old object.new result }
    ensures kept { IsKept result batches.old batches.new }
{
    match object {
        Object::Sender(sender) => sender.left(batches),
        Object::Reservation(_) => Status::OpenReservation,
        Object::Unit(_)
        | Object::Engine(_)
        | Object::Consumer(_)
        | Object::Guest(_)
        | Object::Forwarder(_) => Status::WrongHandle,
    }
}

/// Closes the ring: nothing more is reserved, by any sender.
#[unsafe(no_mangle)]
pub extern "C" fn smmuq_close(sender: &mut Handle) -> u32
    ensures { HasCalled (OfSender HasClosed) sender.old sender.new result }
{
    let Some(object) = sender.object_mut() else {
        return Status::EmptyHandle.number();
    };
    close(object).number()
}

fn close(object: &mut Object) -> Status
    ensures { OfSender HasClosed object.old object.new result }
{
    match object {
        Object::Sender(sender) => sender.close(),
        Object::Reservation(_) => Status::OpenReservation,
        Object::Unit(_)
        | Object::Engine(_)
        | Object::Consumer(_)
        | Object::Guest(_)
        | Object::Forwarder(_) => Status::WrongHandle,
    }
}

/// Tells SMMU_CMDQ_PROD and SMMU_CMDQ_CONS.RD at this moment, and whether the ring is closed.
#[unsafe(no_mangle)]
pub extern "C" fn smmuq_look(sender: &mut Handle, told: &mut ControlWords) -> u32
    ensures called { HasCalled (OfSender (HasLookedFor told.new)) sender.old sender.new result }
    ensures kept { KeptUnlessDone result told.old told.new }
{
    let Some(object) = sender.object_mut() else {
        return Status::EmptyHandle.number();
    };
    look(object, told).number()
}

fn look(object: &mut Object, told: &mut ControlWords) -> Status
    ensures called { OfSender (HasLookedFor told.new) object.old object.new result }
    ensures kept { IsKept result told.old told.new }
{
    match object {
        Object::Sender(sender) => sender.look(told),
        Object::Reservation(_) => Status::OpenReservation,
        Object::Unit(_)
        | Object::Engine(_)
        | Object::Consumer(_)
        | Object::Guest(_)
        | Object::Forwarder(_) => Status::WrongHandle,
    }
}
