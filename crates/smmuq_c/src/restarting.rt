//! The export that begins a hardware queue again.
ghost use Rattle.smmuq_c.specs.Calls.{HasCalled};
ghost use Rattle.smmuq_c.specs.Exports.{Restarts};
ghost use Rattle.smmuq_c.specs.Kept.{IsKept, KeptUnlessDone};

use crate::handle::Handle;
use crate::object::Object;
use crate::status::Status;

/// With which indexes a hardware queue is enabled again.
#[repr(C)]
#[derive(Clone, Copy)]
pub struct RestartWords {
    /// The value for SMMU_CMDQ_PROD.
    pub prod: u32,
    /// The value for SMMU_CMDQ_CONS.
    pub cons: u32,
    /// The data for an MSI of the command at CONS, if that is a CMD_SYNC; for one behind it as many more.
    pub message: u32,
}

/// Begins a hardware queue again that the caller has disabled, by SMMU_GERRORN as he read it with no error active, and
/// tells PROD and CONS, which he writes before he enables it: what isn't known to be consumed lies between them. The MSIs
/// of CMD_SYNCs there get other data, so that those of before aren't believed.
#[unsafe(no_mangle)]
pub extern "C" fn smmuq_forwarder_restart(
    forwarder: &mut Handle,
    gerrorn: u32,
    told: &mut RestartWords,
) -> u32
    ensures called { HasCalled (Restarts gerrorn told.new) forwarder.old forwarder.new result }
    ensures told { KeptUnlessDone result told.old told.new }
{
    let Some(object) = forwarder.object_mut() else {
        return Status::EmptyHandle.number();
    };
    restart(object, gerrorn, told).number()
}

fn restart(object: &mut Object, gerrorn: u32, told: &mut RestartWords) -> Status
    ensures called { Restarts gerrorn told.new object.old object.new result }
    ensures told { IsKept result told.old told.new }
{
    match object {
        Object::Forwarder(forwarder) => forwarder.restart(gerrorn, told),
        Object::Unit(_)
        | Object::Sender(_)
        | Object::Reservation(_)
        | Object::Engine(_)
        | Object::Consumer(_)
        | Object::Guest(_) => Status::WrongHandle,
    }
}
