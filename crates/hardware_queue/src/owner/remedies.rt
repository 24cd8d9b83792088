//! What becomes of a command at which the hardware stopped.
ghost use Rattle.std.specs.Prelude.{◌≡◌, length};
ghost use Rattle.hardware_queue.specs.Queues.{IsOfIllegal};
ghost use Rattle.hardware_queue.specs.Owners.{refusal as refusal_of, remedied as after_remedy, without_memory};

use crate::command_error::CommandError;
use crate::command_queue::CommandQueue;
use crate::remedy::{Remedy, RemedyFault};
use crate::state::QueueState;

/// Why a remedy is refused, if it is.
pub fn refusal(remedy: Remedy, state: QueueState) -> Option<RemedyFault>
    ensures { result ≡ refusal_of remedy state }
{
    match (remedy, state) {
        (Remedy::Retry, QueueState::Stopped(_)) => None,
        (Remedy::Replace, QueueState::Stopped(CommandError::Illegal)) => None,
        (Remedy::Replace, QueueState::Stopped(_)) => Some(RemedyFault::NotIllegal),
        (_, _) => Some(RemedyFault::NotStopped),
    }
}

/// Leaves the command at which the hardware stopped, or writes over it.
pub fn apply<Q: CommandQueue>(remedy: Remedy, queue: &mut Q, slot: u32)
    requires { remedy ≡ Remedy.Replace → IsOfIllegal (Q.queue queue.old) slot }
    ensures new { without_memory (Q.queue queue.new)
        ≡ after_remedy remedy (without_memory (Q.queue queue.old)) }
    ensures memory { length (Q.queue queue.new).memory ≡ length (Q.queue queue.old).memory }
{
    match remedy {
        Remedy::Retry => {}
        Remedy::Replace => queue.overwrite(slot),
    }
}
