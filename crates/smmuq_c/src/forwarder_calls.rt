//! The exports of a forwarder, whose caller reads and writes a hardware queue's memory and registers.
ghost use Rattle.std.specs.Prelude.{◌≡◌, false};
ghost use Rattle.smmuq_c.specs.Calls.{HasCalled};
ghost use Rattle.smmuq_c.specs.Exports.{Forwards, Polls, Remedies};
ghost use Rattle.smmuq_c.specs.Forwarding.{remedy_numbered};
ghost use Rattle.smmuq_c.specs.Kept.{is_forwarder, IsKept, KeptOfOthers, KeptUnlessDone};

use crate::handle::Handle;
use crate::object::Object;
use crate::status::Status;
use cmdcodec::Raw;
use hardware_queue::{RegisterWords, Remedy};

/// Where commands go in the hardware's queue.
#[repr(C)]
#[derive(Clone, Copy)]
pub struct PlacementWords {
    /// The slot of the first.
    pub slot: u32,
    /// How many they are.
    pub count: u32,
    /// The value for SMMU_CMDQ_PROD.
    pub prod: u32,
    /// The data for an MSI of the first, if that is a CMD_SYNC; for one behind it as many more.
    pub message: u32,
}

/// What acknowledges an error.
#[repr(C)]
#[derive(Clone, Copy)]
pub struct AcknowledgementWords {
    /// The command at which the hardware stopped, as it was shown.
    pub command: Raw,
    /// The slot that is written over, if it is replaced.
    pub slot: u32,
    /// The word for SMMU_GERRORN.
    pub gerrorn: u32,
}

/// Takes the commands that are ready from the ring's head on, and writes what the hardware gets for them, and where it
/// goes. Their slots in the ring are free from then on. `SHORT_BUFFER` if there is no room for 64; `REPLACED` if the first
/// is illegal, which is then written alone and goes nowhere; `QUEUE_FULL`, `RING_EMPTY`, `RING_DRAINED`, `RING_UNWRITTEN` or
/// `QUEUE_BROKEN` if none is taken.
#[unsafe(no_mangle)]
pub extern "C" fn smmuq_forward(
    forwarder: &mut Handle,
    buffer: &mut [Raw],
    told: &mut PlacementWords,
) -> u32
    ensures called { HasCalled (Forwards buffer.old buffer.new told.new)
        forwarder.old forwarder.new result }
    ensures buffer { KeptOfOthers is_forwarder forwarder.old.object buffer.old buffer.new }
    ensures told { KeptUnlessDone result told.old told.new }
{
    let Some(object) = forwarder.object_mut() else {
        return Status::EmptyHandle.number();
    };
    forward(object, buffer, told).number()
}

fn forward(object: &mut Object, buffer: &mut [Raw], told: &mut PlacementWords) -> Status
    ensures called { Forwards buffer.old buffer.new told.new object.old object.new result }
    ensures buffer { is_forwarder object.old ≡ false → buffer.new ≡ buffer.old }
    ensures told { IsKept result told.old told.new }
{
    match object {
        Object::Forwarder(forwarder) => forwarder.forward(buffer, told),
        Object::Unit(_)
        | Object::Sender(_)
        | Object::Reservation(_)
        | Object::Engine(_)
        | Object::Consumer(_)
        | Object::Guest(_) => Status::WrongHandle,
    }
}

/// Settles what the hardware has consumed by these words of SMMU_GERROR and then SMMU_CMDQ_CONS, and tells how many more
/// that are: each CMD_SYNC among them is acknowledged to its sender. `QUEUE_STOPPED` if an error is active, with the
/// number; `QUEUE_BROKEN` if no working queue can have these words, and from then on.
#[unsafe(no_mangle)]
pub extern "C" fn smmuq_forwarder_poll(
    forwarder: &mut Handle,
    gerror: u32,
    cons: u32,
    consumed: &mut u32,
) -> u32
    ensures called { HasCalled
        (Polls (record { gerror = gerror; cons = cons }) consumed.old consumed.new)
        forwarder.old forwarder.new result }
    ensures of_others { KeptOfOthers is_forwarder forwarder.old.object consumed.old consumed.new }
{
    let Some(object) = forwarder.object_mut() else {
        return Status::EmptyHandle.number();
    };
    poll(object, RegisterWords { gerror, cons }, consumed).number()
}

fn poll(object: &mut Object, words: RegisterWords, consumed: &mut u32) -> Status
    ensures called { Polls words consumed.old consumed.new object.old object.new result }
    ensures of_others { is_forwarder object.old ≡ false → consumed.new ≡ consumed.old }
{
    match object {
        Object::Forwarder(forwarder) => forwarder.poll(words, consumed),
        Object::Unit(_)
        | Object::Sender(_)
        | Object::Reservation(_)
        | Object::Engine(_)
        | Object::Consumer(_)
        | Object::Guest(_) => Status::WrongHandle,
    }
}

/// Acknowledges the error that the last poll found, by SMMU_GERRORN as it was read, and tells what is to be written:
/// `remedy` 0 has the hardware read the command again, 1 has a CMD_SYNC in its place. G1 if the last poll found no error,
/// G3 and G4 if the command isn't to be replaced, `BAD_FIELD` if the remedy isn't one.
#[unsafe(no_mangle)]
pub extern "C" fn smmuq_forwarder_acknowledge(
    forwarder: &mut Handle,
    gerrorn: u32,
    remedy: u32,
    told: &mut AcknowledgementWords,
) -> u32
    ensures called { HasCalled (Remedies remedy gerrorn told.new)
        forwarder.old forwarder.new result }
    ensures told { KeptUnlessDone result told.old told.new }
{
    let Some(object) = forwarder.object_mut() else {
        return Status::EmptyHandle.number();
    };
    acknowledge(object, gerrorn, remedy, told).number()
}

fn remedy_of(number: u32) -> Option<Remedy>
    ensures { remedy_numbered number result }
{
    match number {
        0 => Some(Remedy::Retry),
        1 => Some(Remedy::Replace),
        _ => None,
    }
}

fn acknowledge(
    object: &mut Object,
    gerrorn: u32,
    remedy: u32,
    told: &mut AcknowledgementWords,
) -> Status
    ensures called { Remedies remedy gerrorn told.new object.old object.new result }
    ensures told { IsKept result told.old told.new }
{
    match object {
        Object::Forwarder(forwarder) => match remedy_of(remedy) {
            Some(remedy) => forwarder.acknowledge(remedy, gerrorn, told),
            None => Status::BadField,
        },
        Object::Unit(_)
        | Object::Sender(_)
        | Object::Reservation(_)
        | Object::Engine(_)
        | Object::Consumer(_)
        | Object::Guest(_) => Status::WrongHandle,
    }
}
