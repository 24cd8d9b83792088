//! The lines of the unit.
ghost use Rattle.std.specs.Prelude.{◌≡◌, IfOk, string_bytes};
ghost use Rattle.script.specs.Standing.{Acts};
ghost use Rattle.simulator.specs.Standing.{Stands};
ghost use Rattle.replay.specs.effects.UnitLines.{completes, step_of, step_effect, acknowledge_effect, dump_effect};
ghost use Rattle.replay.specs.Stepping.{Steps};

use crate::telling::{say_acknowledged, say_acknowledgement_refused, say_dump, say_step};
use engine::{Remedy, StepAnswer};
use simulator::Simulator;
use std::alloc::AllocError;

/// Whether a command was completed, so that another step may follow on the same line.
fn completes(answer: &StepAnswer) -> bool
    ensures { result ≡ completes answer.now }
{
    matches!(answer, StepAnswer::Applied { .. } | StepAnswer::Replaced(_))
}

/// Takes at most one command, and returns whether another step may follow.
fn step(simulator: &mut Simulator, reply: &mut String) -> Result<bool, AllocError>
    ensures { IfOk result (λ may_follow.
        Steps step_of simulator.old simulator.new (string_bytes reply.old) (string_bytes reply.new)
        may_follow) }
{
    let answer = simulator.step();
    say_step(&answer, reply)?;
    Ok(completes(&answer))
}

/// Takes `count` steps, but stops after one that none may follow.
pub(super) fn steps(
    simulator: &mut Simulator,
    count: u64,
    reply: &mut String,
) -> Result<bool, AllocError>
    ensures { IfOk result (λ goes_on.
        Acts Stands (λ wanting.
        step_effect count) simulator.old simulator.new (string_bytes reply.old)
        (string_bytes reply.new) goes_on) }
{
    'steps: for _ in 0..count {
        if !step(simulator, reply)? {
            return Ok(true);
        }
    }
    Ok(true)
}

pub(super) fn acknowledge(
    simulator: &mut Simulator,
    gerrorn: u32,
    remedy: Remedy,
    reply: &mut String,
) -> Result<bool, AllocError>
    ensures { IfOk result (λ goes_on.
        Acts Stands (λ wanting.
        acknowledge_effect gerrorn remedy) simulator.old simulator.new (string_bytes reply.old)
        (string_bytes reply.new) goes_on) }
{
    match simulator.acknowledge(gerrorn, remedy) {
        Ok(()) => say_acknowledged(reply)?,
        Err(fault) => say_acknowledgement_refused(fault, reply)?,
    }
    Ok(true)
}

pub(super) fn dump(simulator: &mut Simulator, reply: &mut String) -> Result<bool, AllocError>
    ensures { IfOk result (λ goes_on.
        Acts Stands (λ wanting.
        dump_effect) simulator.old simulator.new (string_bytes reply.old) (string_bytes reply.new)
        goes_on) }
{
    let Ok(entries) = simulator.entries() else {
        return Err(AllocError);
    };
    let (registers, counts) = (simulator.registers(), simulator.counts());
    say_dump(&registers, &counts, entries.as_slice(), reply)?;
    Ok(true)
}
