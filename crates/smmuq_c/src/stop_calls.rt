//! The exports of the error stop and the counts, of a unit or of an engine.
ghost use Rattle.std.specs.Prelude.{◌≡◌};
ghost use Rattle.transactions.specs.TrackedQueueUnits.{with_queue};
ghost use Rattle.smmuq_c.specs.Calls.{HasCalled, OfState, OfStop, OfUnit, OfQueue, BySaid};
ghost use Rattle.smmuq_c.specs.Registers.{IsRemedyOf, IsErrorOf, HasStoppedFor, HasRestored, HasReset};
ghost use Rattle.smmuq_c.specs.Kept.{IsKept, KeptUnlessDone};

use crate::answers::acknowledgement_status;
use crate::handle::Handle;
use crate::object::Object;
use crate::status::Status;
use crate::words::{Errors, Tallies};
use engine::{QueueError, StopRemedy};
use transactions::TrackedQueueUnit;

/// Writes SMMU_GERRORN, as software. `remedy` 0 has the illegal command come again, 1 has it replaced, 2 leaves that to
/// the words that come next: the same ones come again, and others replace it. For an engine 2 is 0. G1 if no error is
/// active, G2 if CMDQ_ERR of the word isn't that of SMMU_GERROR, `BAD_FIELD` if the remedy isn't one.
#[unsafe(no_mangle)]
pub extern "C" fn smmuq_acknowledge(handle: &mut Handle, gerrorn: u32, remedy: u32) -> u32
    ensures { HasCalled (BySaid (IsRemedyOf remedy) (OfStop gerrorn)) handle.old handle.new result }
{
    let Some(object) = handle.object_mut() else {
        return Status::EmptyHandle.number();
    };
    acknowledge(object, gerrorn, remedy).number()
}

fn remedy_of(number: u32) -> Option<StopRemedy>
    ensures { IsRemedyOf number result }
{
    match number {
        0 => Some(StopRemedy::Retry),
        1 => Some(StopRemedy::Replace),
        2 => Some(StopRemedy::Reread),
        _ => None,
    }
}

fn acknowledge(object: &mut Object, gerrorn: u32, remedy: u32) -> Status
    ensures { BySaid (IsRemedyOf remedy) (OfStop gerrorn) object.old object.new result }
{
    if !object.has_unit() {
        return Status::WrongHandle;
    }
    let Some(remedy) = remedy_of(remedy) else {
        return Status::BadField;
    };
    match object {
        Object::Unit(unit) => acknowledgement_status(unit.acknowledge(gerrorn, remedy)),
        Object::Engine(seated) => seated.acknowledge(gerrorn, remedy.until_then()),
        Object::Sender(_)
        | Object::Reservation(_)
        | Object::Consumer(_)
        | Object::Guest(_)
        | Object::Forwarder(_) => Status::WrongHandle,
    }
}

/// Tells the error registers and the counts of a unit or an engine.
#[unsafe(no_mangle)]
pub extern "C" fn smmuq_state(
    handle: &mut Handle,
    errors: &mut Errors,
    tallies: &mut Tallies,
) -> u32
    ensures called { HasCalled (OfState errors.new tallies.new) handle.old handle.new result }
    ensures errors { KeptUnlessDone result errors.old errors.new }
    ensures tallies { KeptUnlessDone result tallies.old tallies.new }
{
    let Some(object) = handle.object_mut() else {
        return Status::EmptyHandle.number();
    };
    tell_state(object, errors, tallies).number()
}

fn tell_state(object: &Object, errors: &mut Errors, tallies: &mut Tallies) -> Status
    ensures called { OfState errors.new tallies.new object.now object.now result }
    ensures errors { IsKept result errors.old errors.new }
    ensures tallies { IsKept result tallies.old tallies.new }
{
    match object {
        Object::Unit(unit) => {
            *errors = Errors::of(unit.error());
            *tallies = Tallies::from(unit.unit().counts());
            Status::Done
        }
        Object::Engine(seated) => {
            *errors = Errors::of(seated.unit().error());
            *tallies = Tallies::from(seated.unit().counts());
            Status::Done
        }
        Object::Sender(_)
        | Object::Reservation(_)
        | Object::Consumer(_)
        | Object::Guest(_)
        | Object::Forwarder(_) => Status::WrongHandle,
    }
}

fn error_of(number: u32) -> Option<QueueError>
    ensures { IsErrorOf number result }
{
    match number {
        1 => Some(QueueError::Illegal),
        2 => Some(QueueError::Abort),
        3 => Some(QueueError::AtcInvSync),
        _ => None,
    }
}

/// Stops a unit for an error that its model found: 1 is CERROR_ILL, 2 CERROR_ABT, 3 CERROR_ATC_INV_SYNC, and another
/// number `BAD_FIELD`. CMDQ_ERR of SMMU_GERROR toggles. `STILL_STOPPED` if it is stopped: then nothing changed.
#[unsafe(no_mangle)]
pub extern "C" fn smmuq_unit_stop(unit: &mut Handle, err: u32) -> u32
    ensures { HasCalled (OfQueue (HasStoppedFor err)) unit.old unit.new result }
{
    let Some(object) = unit.object_mut() else {
        return Status::EmptyHandle.number();
    };
    stop(object, err).number()
}

fn stop(object: &mut Object, err: u32) -> Status
    ensures { OfQueue (HasStoppedFor err) object.old object.new result }
{
    match object {
        Object::Unit(unit) => stop_for(unit, err),
        Object::Sender(_)
        | Object::Reservation(_)
        | Object::Engine(_)
        | Object::Consumer(_)
        | Object::Guest(_)
        | Object::Forwarder(_) => Status::WrongHandle,
    }
}

fn stop_for(unit: &mut TrackedQueueUnit, err: u32) -> Status
    ensures stopped { HasStoppedFor err unit.old.queue unit.new.queue result }
    ensures rest { unit.new ≡ with_queue unit.new.queue unit.old }
{
    let Some(error) = error_of(err) else {
        return Status::BadField;
    };
    if unit.stopped() {
        return Status::StillStopped;
    }
    unit.stop(error);
    Status::Done
}

/// Sets CMDQ_ERR of both registers of a unit, as where its queue was served before. If they differ it is stopped for the
/// error of this number, as by `smmuq_unit_stop`. `BAD_FIELD` if there is none, `STILL_STOPPED` if it is stopped: then
/// nothing changed.
#[unsafe(no_mangle)]
pub extern "C" fn smmuq_unit_restore(unit: &mut Handle, err: u32, gerror: u32, gerrorn: u32) -> u32
    ensures { HasCalled (OfQueue (HasRestored err gerror gerrorn)) unit.old unit.new result }
{
    let Some(object) = unit.object_mut() else {
        return Status::EmptyHandle.number();
    };
    restore(object, err, gerror, gerrorn).number()
}

fn restore(object: &mut Object, err: u32, gerror: u32, gerrorn: u32) -> Status
    ensures { OfQueue (HasRestored err gerror gerrorn) object.old object.new result }
{
    match object {
        Object::Unit(unit) => restore_to(unit, err, gerror, gerrorn),
        Object::Sender(_)
        | Object::Reservation(_)
        | Object::Engine(_)
        | Object::Consumer(_)
        | Object::Guest(_)
        | Object::Forwarder(_) => Status::WrongHandle,
    }
}

fn restore_to(unit: &mut TrackedQueueUnit, err: u32, gerror: u32, gerrorn: u32) -> Status
    ensures restored { HasRestored err gerror gerrorn unit.old.queue unit.new.queue result }
    ensures rest { unit.new ≡ with_queue unit.new.queue unit.old }
{
    let Some(error) = error_of(err) else {
        return Status::BadField;
    };
    if unit.stopped() {
        return Status::StillStopped;
    }
    unit.restore(gerror, gerrorn, error);
    Status::Done
}

/// Empties a unit's caches where it is, and starts its counts, registers and stop afresh, as a reset of the SMMU does.
/// No transaction is outstanding then, and walks that began before are refused. Takes no memory.
#[unsafe(no_mangle)]
pub extern "C" fn smmuq_unit_reset(unit: &mut Handle) -> u32
    ensures { HasCalled (OfUnit HasReset) unit.old unit.new result }
{
    let Some(object) = unit.object_mut() else {
        return Status::EmptyHandle.number();
    };
    reset(object).number()
}

fn reset(object: &mut Object) -> Status
    ensures { OfUnit HasReset object.old object.new result }
{
    match object {
        Object::Unit(unit) => {
            unit.reset();
            Status::Done
        }
        Object::Sender(_)
        | Object::Reservation(_)
        | Object::Engine(_)
        | Object::Consumer(_)
        | Object::Guest(_)
        | Object::Forwarder(_) => Status::WrongHandle,
    }
}
