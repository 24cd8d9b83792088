//! The exports of an engine.
ghost use Rattle.std.specs.Prelude.{◌≡◌, false, Some};
ghost use Rattle.smmuq_c.specs.Calls.{HasCalled, OfEngine};
ghost use Rattle.smmuq_c.specs.Exports.{RunsTelling};
ghost use Rattle.smmuq_c.specs.Runs.{HasRunFor, HasToldRegisters};
ghost use Rattle.smmuq_c.specs.Kept.{is_engine, IsKept, KeptOfOthers, KeptUnlessDone, KeptUnlessRun};

use crate::handle::Handle;
use crate::object::Object;
use crate::status::Status;
use crate::words::{RegisterWords, RunWords};
use engine::Completion;

/// Takes up to `most` commands, cut to 1 to 64, and applies them: 0 if some were applied, 1 to 4 if the engine stopped
/// at one, `REPLACED` if one was taken without effect; `RING_EMPTY`, `RING_DRAINED`, `RING_UNWRITTEN`, `STILL_STOPPED`
/// or `EXHAUSTED` if none was taken.
#[unsafe(no_mangle)]
pub extern "C" fn smmuq_run(engine: &mut Handle, most: u32, answer: &mut RunWords) -> u32
    ensures called { HasCalled (OfEngine (HasRunFor most answer.new)) engine.old engine.new result }
    ensures kept { KeptOfOthers is_engine engine.old.object answer.old answer.new }
{
    let Some(object) = engine.object_mut() else {
        return Status::EmptyHandle.number();
    };
    run(object, most, answer).number()
}

fn run(object: &mut Object, most: u32, answer: &mut RunWords) -> Status
    ensures called { OfEngine (HasRunFor most answer.new) object.old object.new result }
    ensures kept { is_engine object.old ≡ false → answer.new ≡ answer.old }
{
    match object {
        Object::Engine(engine) => engine.run(most, answer),
        Object::Unit(_)
        | Object::Sender(_)
        | Object::Reservation(_)
        | Object::Consumer(_)
        | Object::Guest(_)
        | Object::Forwarder(_) => Status::WrongHandle,
    }
}

/// The same, and tells the CMD_SYNCs that completed, in order, and how many they are: whom to wake. `most` is also cut to
/// the room. `SHORT_BUFFER` if there is none: nothing was done.
#[unsafe(no_mangle)]
pub extern "C" fn smmuq_run_completions(
    engine: &mut Handle,
    most: u32,
    answer: &mut RunWords,
    buffer: &mut [Completion],
    count: &mut usize,
) -> u32
    ensures called { HasCalled (RunsTelling most answer.new buffer.old buffer.new count.new)
        engine.old engine.new result }
    ensures answer { KeptUnlessRun engine.old.object buffer.old answer.old answer.new }
    ensures buffer { KeptUnlessRun engine.old.object buffer.old buffer.old buffer.new }
    ensures count { KeptUnlessRun engine.old.object buffer.old count.old count.new }
{
    let Some(object) = engine.object_mut() else {
        return Status::EmptyHandle.number();
    };
    run_completions(object, most, answer, buffer, count).number()
}

fn run_completions(
    object: &mut Object,
    most: u32,
    answer: &mut RunWords,
    buffer: &mut [Completion],
    count: &mut usize,
) -> Status
    ensures called { RunsTelling most answer.new buffer.old buffer.new count.new
        object.old object.new result }
    ensures answer { KeptUnlessRun (Some object.old) buffer.old answer.old answer.new }
    ensures buffer { KeptUnlessRun (Some object.old) buffer.old buffer.old buffer.new }
    ensures count { KeptUnlessRun (Some object.old) buffer.old count.old count.new }
{
    match object {
        Object::Engine(engine) => engine.run_completions(most, answer, buffer, count),
        Object::Unit(_)
        | Object::Sender(_)
        | Object::Reservation(_)
        | Object::Consumer(_)
        | Object::Guest(_)
        | Object::Forwarder(_) => Status::WrongHandle,
    }
}

/// Tells the queue's registers at this moment.
#[unsafe(no_mangle)]
pub extern "C" fn smmuq_registers(engine: &mut Handle, told: &mut RegisterWords) -> u32
    ensures called { HasCalled (OfEngine (HasToldRegisters told.new)) engine.old engine.new result }
    ensures kept { KeptUnlessDone result told.old told.new }
{
    let Some(object) = engine.object_mut() else {
        return Status::EmptyHandle.number();
    };
    tell_registers(object, told).number()
}

fn tell_registers(object: &mut Object, told: &mut RegisterWords) -> Status
    ensures called { OfEngine (HasToldRegisters told.new) object.old object.new result }
    ensures kept { IsKept result told.old told.new }
{
    match object {
        Object::Engine(engine) => engine.registers(told),
        Object::Unit(_)
        | Object::Sender(_)
        | Object::Reservation(_)
        | Object::Consumer(_)
        | Object::Guest(_)
        | Object::Forwarder(_) => Status::WrongHandle,
    }
}
