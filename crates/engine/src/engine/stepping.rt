//! A step of one command.
ghost use Rattle.std.specs.Prelude.{◌≡◌, ◌↔◌};
ghost use Rattle.engine.specs.Stops.{IsStopped};
ghost use Rattle.engine.specs.Units.{OnlyRemoves};
ghost use Rattle.engine.specs.Engines.{AreTogether, HasGrown, HasStepped, IsExhausted, engine};

use crate::answer::StepAnswer;
use crate::unit::Unit;
use crate::verdict::Verdict;
use ring::{Consumer, Outcome, Ring, Taken, growth_adds_up};
use ringcore::MOST_RESERVED;

/// Takes at most one command, with a unit and its consumer. `Engine::step` does this for an owner of both.
pub fn step_with(
    consumer: Consumer<Unit>,
    unit: &mut Unit,
    ring: &Ring,
) -> (Consumer<Unit>, StepAnswer)
    requires ring { consumer.ring ≡ ring.now }
    requires together { AreTogether consumer unit.old }
    ensures stepped { HasStepped (engine consumer unit.old) (engine result.0 unit.new) result.1 }
    ensures history { HasGrown (engine consumer unit.old) (engine result.0 unit.new) }
    ensures still { (result.1 ≡ StepAnswer.StillStopped) ↔ IsStopped unit.old.stop.mode }
    ensures exhausted { (result.1 ≡ StepAnswer.Exhausted) ↔ IsExhausted unit.old }
    ensures together { AreTogether result.0 unit.new }
    ensures removes { OnlyRemoves unit.old unit.new }
    ensures ring { result.0.ring ≡ consumer.ring }
{
    if unit.stopped() {
        return (consumer, StepAnswer::StillStopped);
    }
    if unit.counts().taken() == MOST_RESERVED {
        return (consumer, StepAnswer::Exhausted);
    }
    growth_adds_up();
    match consumer.take(ring) {
        Taken::Empty(consumer) => (consumer, StepAnswer::Empty),
        Taken::Drained(consumer) => (consumer, StepAnswer::Drained),
        Taken::Unwritten(consumer) => (consumer, StepAnswer::Unwritten),
        Taken::Ready(pending) => match unit.judge(pending.raw()) {
            Verdict::Applied { command, removed } => (
                pending.complete(ring, Outcome::Applied, unit),
                StepAnswer::Applied { command, removed },
            ),
            Verdict::Replaced(ill) => (
                pending.complete(ring, Outcome::Replaced, unit),
                StepAnswer::Replaced(ill),
            ),
            Verdict::Stopped(ill) => (pending.put_back(), StepAnswer::Stopped(ill)),
        },
    }
}
