//! The export that settles what a completion message tells.
ghost use Rattle.std.specs.Prelude.{◌≡◌, false};
ghost use Rattle.smmuq_c.specs.Calls.{HasCalled};
ghost use Rattle.smmuq_c.specs.Exports.{PollsMessage};
ghost use Rattle.smmuq_c.specs.Kept.{is_forwarder, KeptOfOthers};

use crate::handle::Handle;
use crate::object::Object;
use crate::status::Status;

/// Settles what the hardware has consumed, as `smmuq_forwarder_poll` does, by `message`, the data of an MSI that
/// completed a CMD_SYNC, as `smmuq_forward` or `smmuq_forwarder_restart` told it. Tells how many more were consumed: 0,
/// and nothing changes, if it is older than what is known, as any of before a restart is, or ahead of what was shown; or
/// where the last look found a stop or a broken queue.
#[unsafe(no_mangle)]
pub extern "C" fn smmuq_forwarder_poll_msi(
    forwarder: &mut Handle,
    message: u32,
    consumed: &mut u32,
) -> u32
    ensures called { HasCalled (PollsMessage message consumed.new)
        forwarder.old forwarder.new result }
    ensures of_others { KeptOfOthers is_forwarder forwarder.old.object consumed.old consumed.new }
{
    let Some(object) = forwarder.object_mut() else {
        return Status::EmptyHandle.number();
    };
    poll_msi(object, message, consumed).number()
}

fn poll_msi(object: &mut Object, message: u32, consumed: &mut u32) -> Status
    ensures called { PollsMessage message consumed.new object.old object.new result }
    ensures of_others { is_forwarder object.old ≡ false → consumed.new ≡ consumed.old }
{
    match object {
        Object::Forwarder(forwarder) => forwarder.poll_msi(message, consumed),
        Object::Unit(_)
        | Object::Sender(_)
        | Object::Reservation(_)
        | Object::Engine(_)
        | Object::Consumer(_)
        | Object::Guest(_) => Status::WrongHandle,
    }
}
