//! The lines by which a sender looks, closes, asks, and publishes what it reserved.
ghost use Rattle.std.specs.Prelude.{◌≡◌, IfOk, string_bytes};
ghost use Rattle.script.specs.Standing.{Acts};
ghost use Rattle.simulator.specs.Standing.{Stands};
ghost use Rattle.replay.specs.effects.SenderLines.{look_effect, close_effect, done_effect, publish_effect};

use crate::sender_fault::{reserved_fault, settled_fault};
use crate::telling::{say_closed, say_control, say_done, say_published};
use script::say_fault;
use simulator::Simulator;
use std::alloc::AllocError;

pub(super) fn look(
    simulator: &mut Simulator,
    number: u64,
    sender: u32,
    reply: &mut String,
) -> Result<bool, AllocError>
    ensures { IfOk result (λ goes_on.
        Acts Stands (λ wanting.
        look_effect number sender) simulator.old simulator.new (string_bytes reply.old)
        (string_bytes reply.new) goes_on) }
{
    if let Some(fault) = settled_fault(simulator, sender) {
        say_fault(number, fault.label(), reply)?;
        return Ok(false);
    }
    let control = simulator.look(sender);
    say_control(&control, reply)?;
    Ok(true)
}

pub(super) fn close(
    simulator: &mut Simulator,
    number: u64,
    sender: u32,
    reply: &mut String,
) -> Result<bool, AllocError>
    ensures { IfOk result (λ goes_on.
        Acts Stands (λ wanting.
        close_effect number sender) simulator.old simulator.new (string_bytes reply.old)
        (string_bytes reply.new) goes_on) }
{
    if let Some(fault) = settled_fault(simulator, sender) {
        say_fault(number, fault.label(), reply)?;
        return Ok(false);
    }
    simulator.close(sender);
    say_closed(reply)?;
    Ok(true)
}

pub(super) fn done(
    simulator: &mut Simulator,
    number: u64,
    sender: u32,
    reply: &mut String,
) -> Result<bool, AllocError>
    ensures { IfOk result (λ goes_on.
        Acts Stands (λ wanting.
        done_effect number sender) simulator.old simulator.new (string_bytes reply.old)
        (string_bytes reply.new) goes_on) }
{
    if let Some(fault) = settled_fault(simulator, sender) {
        say_fault(number, fault.label(), reply)?;
        return Ok(false);
    }
    let done = simulator.done_up_to(sender);
    say_done(sender, done, reply)?;
    Ok(true)
}

pub(super) fn publish(
    simulator: &mut Simulator,
    number: u64,
    sender: u32,
    reply: &mut String,
) -> Result<bool, AllocError>
    ensures { IfOk result (λ goes_on.
        Acts Stands (λ wanting.
        publish_effect number sender) simulator.old simulator.new (string_bytes reply.old)
        (string_bytes reply.new) goes_on) }
{
    if let Some(fault) = reserved_fault(simulator, sender) {
        say_fault(number, fault.label(), reply)?;
        return Ok(false);
    }
    let batch = simulator.publish(sender);
    say_published(sender, batch, reply)?;
    Ok(true)
}
