//! The lines of the caches.
ghost use Rattle.std.specs.Prelude.{◌≡◌, IfOk, string_bytes};
ghost use Rattle.script.specs.Standing.{Acts};
ghost use Rattle.simulator.specs.Standing.{Stands};
ghost use Rattle.replay.specs.effects.CacheLines.{fill_effect, evict_effect, lookup_effect};

use crate::telling::{say_evicted, say_fill_refused, say_filled, say_found};
use caches::Tag;
use simulator::Simulator;
use std::alloc::AllocError;

pub(super) fn fill(
    simulator: &mut Simulator,
    tag: Tag,
    value: u64,
    reply: &mut String,
) -> Result<bool, AllocError>
    ensures { IfOk result (λ goes_on.
        Acts Stands (λ wanting.
        fill_effect wanting tag value) simulator.old simulator.new (string_bytes reply.old)
        (string_bytes reply.new) goes_on) }
{
    match simulator.fill(tag, value) {
        Ok(was) => say_filled(was, reply)?,
        Err(fault) => say_fill_refused(fault, reply)?,
    }
    Ok(true)
}

pub(super) fn evict(
    simulator: &mut Simulator,
    tag: &Tag,
    reply: &mut String,
) -> Result<bool, AllocError>
    ensures { IfOk result (λ goes_on.
        Acts Stands (λ wanting.
        evict_effect tag.now) simulator.old simulator.new (string_bytes reply.old)
        (string_bytes reply.new) goes_on) }
{
    let was = simulator.evict(tag);
    say_evicted(was, reply)?;
    Ok(true)
}

pub(super) fn lookup(
    simulator: &mut Simulator,
    tag: &Tag,
    reply: &mut String,
) -> Result<bool, AllocError>
    ensures { IfOk result (λ goes_on.
        Acts Stands (λ wanting.
        lookup_effect tag.now) simulator.old simulator.new (string_bytes reply.old)
        (string_bytes reply.new) goes_on) }
{
    let found = simulator.lookup(tag);
    say_found(found, reply)?;
    Ok(true)
}
