//! The lines of a replay, once the ring is made.
ghost use Rattle.std.specs.Prelude.{◌≡◌, IfOk, string_bytes};
ghost use Rattle.script.specs.Standing.{Acts};
ghost use Rattle.simulator.specs.Standing.{Stands};
ghost use Rattle.replay.specs.ReplayText.{served};

mod cache_lines;
mod send_lines;
mod sender_lines;
mod unit_lines;

use crate::request::Request;
use cache_lines::{evict, fill, lookup};
use script::say_fault;
use send_lines::send;
use sender_lines::{close, done, look, publish};
use simulator::Simulator;
use std::alloc::AllocError;
use unit_lines::{acknowledge, dump, steps};

/// Serves a request, and returns whether the run goes on.
#[tactic(auto, unfolding(crate::specs::ReplayText::served))]
pub(crate) fn serve_made(
    simulator: &mut Simulator,
    number: u64,
    request: &Request,
    reply: &mut String,
) -> Result<bool, AllocError>
    ensures { IfOk result (λ goes_on.
        Acts Stands (λ wanting.
        served number wanting request.now) simulator.old simulator.new (string_bytes reply.old)
        (string_bytes reply.new) goes_on) }
{
    match request {
        Request::Nothing => Ok(true),
        Request::Ring(_) => {
            say_fault(number, "second ring", reply)?;
            Ok(false)
        }
        Request::Fill { tag, value } => fill(simulator, *tag, *value, reply),
        Request::Evict { tag } => evict(simulator, tag, reply),
        Request::Lookup { tag } => lookup(simulator, tag, reply),
        Request::Send(sending) => send(simulator, number, sending, reply),
        Request::Publish { sender } => publish(simulator, number, *sender, reply),
        Request::Step { count } => steps(simulator, *count, reply),
        Request::Acknowledge { gerrorn, remedy } => {
            acknowledge(simulator, *gerrorn, *remedy, reply)
        }
        Request::Done { sender } => done(simulator, number, *sender, reply),
        Request::Look { sender } => look(simulator, number, *sender, reply),
        Request::Close { sender } => close(simulator, number, *sender, reply),
        Request::Dump => dump(simulator, reply),
    }
}
