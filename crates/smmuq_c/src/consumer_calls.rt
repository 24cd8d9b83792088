//! The exports of a consumer of the caller's own.
ghost use Rattle.std.specs.Prelude.{◌≡◌, false};
ghost use Rattle.smmuq_c.specs.Calls.{HasCalled, OfConsumer};
ghost use Rattle.smmuq_c.specs.Exports.{TakesRun};
ghost use Rattle.smmuq_c.specs.Taking.{HasCompletedFor};
ghost use Rattle.smmuq_c.specs.Kept.{is_consumer, KeptOfOthers};

use crate::handle::Handle;
use crate::object::Object;
use crate::status::Status;
use cmdcodec::Raw;

/// Writes the commands that are ready from the ring's head on, as many as the buffer has room for, up to 64, and their
/// number. They stay in the ring until they are completed, and the next take finds them again. `SHORT_BUFFER` if there
/// is no room; `RING_EMPTY`, `RING_DRAINED` or `RING_UNWRITTEN` if no command is ready.
#[unsafe(no_mangle)]
pub extern "C" fn smmuq_take_run(
    consumer: &mut Handle,
    buffer: &mut [Raw],
    count: &mut usize,
) -> u32
    ensures called { HasCalled (TakesRun buffer.old buffer.new count.new) consumer.old consumer.new
        result }
    ensures buffer { KeptOfOthers is_consumer consumer.old.object buffer.old buffer.new }
    ensures count { KeptOfOthers is_consumer consumer.old.object count.old count.new }
{
    let Some(object) = consumer.object_mut() else {
        return Status::EmptyHandle.number();
    };
    take_run(object, buffer, count).number()
}

fn take_run(object: &mut Object, buffer: &mut [Raw], count: &mut usize) -> Status
    ensures called { TakesRun buffer.old buffer.new count.new object.old object.new result }
    ensures buffer { is_consumer object.old ≡ false → buffer.new ≡ buffer.old }
    ensures count { is_consumer object.old ≡ false → count.new ≡ count.old }
{
    match object {
        Object::Consumer(consumer) => consumer.take_run(buffer, count),
        Object::Unit(_)
        | Object::Sender(_)
        | Object::Reservation(_)
        | Object::Engine(_)
        | Object::Guest(_)
        | Object::Forwarder(_) => Status::WrongHandle,
    }
}

/// Completes the first `count` of the commands that the last take told: they leave the ring, and then each CMD_SYNC
/// among them is acknowledged to its sender. The caller must have given them their effect before. `REPLACED` if it is a
/// single illegal one, which had none; 1 to 4 if one of several is illegal, `BAD_FIELD` if `count` is 0 or more than
/// were told: then none is completed.
#[unsafe(no_mangle)]
pub extern "C" fn smmuq_complete(consumer: &mut Handle, count: usize) -> u32
    ensures { HasCalled (OfConsumer (HasCompletedFor count)) consumer.old consumer.new result }
{
    let Some(object) = consumer.object_mut() else {
        return Status::EmptyHandle.number();
    };
    complete(object, count).number()
}

fn complete(object: &mut Object, count: usize) -> Status
    ensures { OfConsumer (HasCompletedFor count) object.old object.new result }
{
    match object {
        Object::Consumer(consumer) => consumer.complete(count),
        Object::Unit(_)
        | Object::Sender(_)
        | Object::Reservation(_)
        | Object::Engine(_)
        | Object::Guest(_)
        | Object::Forwarder(_) => Status::WrongHandle,
    }
}
