//! The registers.
ghost use Rattle.std.specs.Prelude.{◌≡◌, ◌≢◌, ◌≤◌, ◌/◌, ◌↔◌, IsTrue, length};
ghost use Rattle.qindex.specs.Indexes.{IsQueue};
ghost use Rattle.hardware_queue.specs.Queues.{QueueValue, HasReadCons, command_queue_error, toggled};
ghost use Rattle.hardware_queue.specs.Owners.{IsLookedAt};

use crate::command_queue::CommandQueue;
use qindex::Index;

/// RD of SMMU_CMDQ_CONS.
const RD: u32 = 1 << 20;

/// Returns how many more were consumed by a value of SMMU_CMDQ_CONS, for a queue with these indexes, if the value can be
/// believed: RD is neither behind what was consumed nor ahead of PROD.
pub fn newly_consumed(word: u32, prod: Index, cons: Index) -> Option<u32>
    requires { prod.geometry ≡ cons.geometry }
    ensures { (q : QueueValue) → IsQueue prod cons q.geometry (length q.shown) q.consumed
        → IsLookedAt q word result }
{
    let found = Index::new(cons.geometry(), word % RD)?;
    let count = found.distance(cons);
    if count > prod.distance(cons) {
        return None;
    }
    Some(count)
}

/// Reads SMMU_CMDQ_CONS once. Returns its value, and how many more were consumed if the value can be believed.
pub fn look_at_cons<Q: CommandQueue>(queue: &mut Q, prod: Index, cons: Index) -> (u32, Option<u32>)
    requires { IsQueue prod cons (Q.queue queue.old).geometry
        (length (Q.queue queue.old).shown) (Q.queue queue.old).consumed }
    ensures read { HasReadCons (Q.queue queue.old) (Q.queue queue.new) result.0 }
    ensures found { IsLookedAt (Q.queue queue.old) result.0 result.1 }
{
    let word = queue.read_cons();
    (word, newly_consumed(word, prod, cons))
}

/// Whether SMMU_GERROR tells of an error that isn't acknowledged, with so many commands in flight.
pub fn is_error_active(gerror: u32, acknowledged: bool, in_flight: u32) -> bool
    ensures { IsTrue result ↔ ((command_queue_error gerror ≢ acknowledged) × (1 ≤ in_flight)) }
{
    let error = gerror % 2 == 1;
    in_flight > 0 && error != acknowledged
}

/// Returns SMMU_GERRORN with CMDQ_ERR the other way round.
pub fn toggle(word: u32) -> u32
    ensures { result ≡ toggled word }
{
    if word % 2 == 1 { word - 1 } else { word + 1 }
}

/// Returns the word with this CMDQ_ERR, and all other bits as they are.
pub fn with_error(word: u32, error: bool) -> u32
    ensures bit { command_queue_error result ≡ error }
    ensures others { result / 2 ≡ word / 2 }
{
    if error {
        word - word % 2 + 1
    } else {
        word - word % 2
    }
}
