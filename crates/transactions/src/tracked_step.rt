//! A step of a tracked unit with the consumer of a ring.
ghost use Rattle.std.specs.Prelude.{◌≡◌, ◌↔◌};
ghost use Rattle.engine.specs.Stops.{IsStopped};
ghost use Rattle.engine.specs.Engines.{IsExhausted};
ghost use Rattle.transactions.specs.Together.{AreTracked, HasStepped, HasGrown};

use crate::tracked::TrackedUnit;
use crate::tracked_verdict::TrackedVerdict;
use engine::{StepAnswer, Verdict};
use ring::{Consumer, Outcome, Ring, Taken, growth_adds_up};
use ringcore::MOST_RESERVED;

/// What a step did.
#[derive(Clone, Copy, Debug, PartialEq, Eq)]
pub enum TrackedStep {
    /// What a step of a unit does.
    Stepped(StepAnswer),
    /// A legal CMD_SYNC comes next that has to wait for so many transactions. It stays in the ring.
    Waiting { transactions: u32 },
}

/// Takes at most one command of a ring, with a tracked unit and its consumer, as
/// `engine::step_with` does. A CMD_SYNC is put back while an outstanding transaction began with an
/// entry that a command before it covers.
///
/// The consumer completes nothing unless the unit is tracked for all that is then taken: so no
/// CMD_SYNC is acknowledged too early.
pub fn step_with(
    consumer: Consumer<TrackedUnit>,
    tracked: &mut TrackedUnit,
    ring: &Ring,
) -> (Consumer<TrackedUnit>, TrackedStep)
    requires ring { consumer.ring ≡ ring.now }
    requires together { AreTracked consumer tracked.old }
    ensures together { AreTracked result.0 tracked.new }
    ensures history { HasGrown consumer result.0 }
    ensures ring { result.0.ring ≡ consumer.ring }
    ensures stepped { HasStepped result.1 consumer tracked.old result.0 tracked.new }
    ensures still { (result.1 ≡ TrackedStep.Stepped StepAnswer.StillStopped)
        ↔ IsStopped tracked.old.unit.stop.mode }
    ensures exhausted { (result.1 ≡ TrackedStep.Stepped StepAnswer.Exhausted)
        ↔ IsExhausted tracked.old.unit }
{
    if tracked.unit().stopped() {
        return (consumer, TrackedStep::Stepped(StepAnswer::StillStopped));
    }
    if tracked.unit().counts().taken() == MOST_RESERVED {
        return (consumer, TrackedStep::Stepped(StepAnswer::Exhausted));
    }
    growth_adds_up();
    match consumer.take(ring) {
        Taken::Empty(consumer) => (consumer, TrackedStep::Stepped(StepAnswer::Empty)),
        Taken::Drained(consumer) => (consumer, TrackedStep::Stepped(StepAnswer::Drained)),
        Taken::Unwritten(consumer) => (consumer, TrackedStep::Stepped(StepAnswer::Unwritten)),
        Taken::Ready(pending) => match tracked.judge(pending.raw()) {
            TrackedVerdict::Judged(Verdict::Applied { command, removed }) => (
                pending.complete(ring, Outcome::Applied, tracked),
                TrackedStep::Stepped(StepAnswer::Applied { command, removed }),
            ),
            TrackedVerdict::Judged(Verdict::Replaced(ill)) => (
                pending.complete(ring, Outcome::Replaced, tracked),
                TrackedStep::Stepped(StepAnswer::Replaced(ill)),
            ),
            TrackedVerdict::Judged(Verdict::Stopped(ill)) => (
                pending.put_back(),
                TrackedStep::Stepped(StepAnswer::Stopped(ill)),
            ),
            TrackedVerdict::Waiting { transactions } => {
                (pending.put_back(), TrackedStep::Waiting { transactions })
            }
        },
    }
}
