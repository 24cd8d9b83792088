//! The export that tells what became of a batch.
ghost use Rattle.std.specs.Prelude.{◌≡◌};
ghost use Rattle.smmuq_c.specs.Calls.{HasCalled};
ghost use Rattle.smmuq_c.specs.Exports.{TellsOutcome};
ghost use Rattle.smmuq_c.specs.Kept.{IsKept, KeptUnlessDone};
ghost use Rattle.smmuq_c.specs.Outcomes.{outcome_words};

use crate::handle::Handle;
use crate::object::Object;
use crate::status::Status;
use hardware_queue::BatchOutcome;

/// What became of a batch.
#[repr(C)]
#[derive(Clone, Copy)]
pub struct OutcomeWords {
    /// 0 if all of it was carried out, 1 if commands were lost, 2 if it isn't settled, 3 if it isn't known any more.
    pub outcome: u32,
    /// How many were lost, if that is known, and else 0; `2^32 - 1` if more.
    pub lost: u32,
}

impl From<BatchOutcome> for OutcomeWords {
    fn from(outcome: BatchOutcome) -> OutcomeWords
        ensures { result ≡ outcome_words outcome }
    {
        let (outcome, lost) = match outcome {
            BatchOutcome::Complete => (0, 0),
            BatchOutcome::Lost(lost) => (1, lost),
            BatchOutcome::NotYet => (2, 0),
            BatchOutcome::Unknown => (3, 0),
        };
        OutcomeWords { outcome, lost }
    }
}

/// Tells what became of the batch of a sender with this number. `BAD_FIELD` if the ring has no such sender.
#[unsafe(no_mangle)]
pub extern "C" fn smmuq_forwarder_outcome(
    forwarder: &mut Handle,
    sender: u32,
    number: u32,
    told: &mut OutcomeWords,
) -> u32
    ensures called { HasCalled (TellsOutcome sender number told.new)
        forwarder.old forwarder.new result }
    ensures told { KeptUnlessDone result told.old told.new }
{
    let Some(object) = forwarder.object_mut() else {
        return Status::EmptyHandle.number();
    };
    tell_outcome(object, sender, number, told).number()
}

fn tell_outcome(object: &mut Object, sender: u32, number: u32, told: &mut OutcomeWords) -> Status
    ensures called { TellsOutcome sender number told.new object.old object.new result }
    ensures told { IsKept result told.old told.new }
{
    match object {
        Object::Forwarder(forwarder) => forwarder.outcome(sender, number, told),
        Object::Unit(_)
        | Object::Sender(_)
        | Object::Reservation(_)
        | Object::Engine(_)
        | Object::Consumer(_)
        | Object::Guest(_) => Status::WrongHandle,
    }
}
