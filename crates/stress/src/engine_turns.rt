//! The engine's part in a run.
ghost use Rattle.std.specs.Prelude.{◌≡◌, Ok, Err, OnOk, OnErr, IfOk};
ghost use Rattle.ringcore.specs.world.ConsumerLaws.{SawDrained};
ghost use Rattle.stress.specs.EngineTurns.{GoesOn, HasTurned, IsAny, HasDrained, IsUndrained, IsNotDrained};

use crate::fault::StressFault;
use crate::gate::Gate;
use engine::{Engine, RunAnswer};
use ring::Ring;

/// The most commands that a turn takes.
const MOST_COMMANDS: u32 = 64;

/// How a ring with nothing to take was found.
#[derive(Clone, Copy, Debug, PartialEq, Eq)]
pub(crate) enum Found {
    Empty,
    /// Empty, and closed: nothing will come.
    Drained,
}

/// Runs the engine for `turns` turns.
pub(crate) fn run_engine<G: Gate>(ring: &Ring, gate: &G, turns: u32, mut engine: Engine) -> Engine
    requires { engine.consumer.ring ≡ ring.now }
    ensures goes_on { GoesOn turns engine result }
    ensures turns { HasTurned IsAny turns engine result }
{
    for turn in 0..turns {
        gate.turn(turn + 1);
        engine.step_run(ring, MOST_COMMANDS);
    }
    engine
}

/// Takes turns until the ring has nothing to take, at most one more than it has slots.
///
/// Errors: S2 if there is something even then.
pub(crate) fn drain(ring: &Ring, slots: u32, engine: &mut Engine) -> Result<Found, StressFault>
    requires { engine.old.consumer.ring ≡ ring.now }
    ensures goes_on { GoesOn 1 engine.old engine.new }
    ensures found { IfOk result (λ found. HasDrained slots found engine.old engine.new) }
    ensures err { OnErr result (result ≡ Err StressFault.Unfinished) }
    ensures undrained { OnErr result (IsUndrained slots engine.old engine.new) }
    ensures drained { result ≡ Ok Found.Drained → SawDrained engine.new.consumer.trail }
{
    for _ in 0..=slots {
        match engine.step_run(ring, MOST_COMMANDS) {
            RunAnswer::Empty => return Ok(Found::Empty),
            RunAnswer::Drained => return Ok(Found::Drained),
            _ => {}
        }
    }
    Err(StressFault::Unfinished)
}

/// Takes turns until the ring is found empty and closed.
///
/// Errors: S2 if a drain didn't come to its end, or the ring was found open.
pub(crate) fn drain_closed(ring: &Ring, slots: u32, engine: &mut Engine) -> Result<(), StressFault>
    requires { engine.old.consumer.ring ≡ ring.now }
    ensures goes_on { GoesOn 1 engine.old engine.new }
    ensures drained { OnOk result (SawDrained engine.new.consumer.trail) }
    ensures err { OnErr result (result ≡ Err StressFault.Unfinished) }
    ensures undrained { OnErr result (IsNotDrained slots engine.old engine.new) }
{
    let Found::Drained = drain(ring, slots, engine)? else {
        return Err(StressFault::Unfinished);
    };
    Ok(())
}
