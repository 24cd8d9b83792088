//! Schedules, a kind of script.
ghost use Rattle.std.specs.Prelude.{◌≡◌, IfOk, string_bytes};
ghost use Rattle.ringcore.specs.machine.Core.{core_fault, IsTakenOrRefused};
ghost use Rattle.script.specs.Standing.{Acts, Begins};
ghost use Rattle.schedule.specs.ScheduleText.{ring_or_fault, step_effect, served};
ghost use Rattle.schedule.specs.Standing.{Stands};
ghost use Rattle.schedule.specs.Steps.{step_of};

use crate::parsing::parse_named;
use crate::request::{Asked, Request};
use crate::telling::{say_answer, say_step_fault};
use ringcore::{Core, CoreFault, Seen, StepFault};
use script::{First, ScriptKind, say_fault};
use std::alloc::{AllocError, Global};

/// Makes a ring, if its numbers are in range.
fn first_ring(alloc: Global, log2: u32, senders: u32) -> Result<First<Core>, AllocError>
    ensures { IfOk result (λ first.
        Begins Stands first (λ number.
        ring_or_fault number log2 senders (core_fault log2 senders))) }
{
    match Core::new(alloc, log2, senders) {
        Ok(core) => Ok(First::Made { log2, kept: core }),
        Err(CoreFault::Memory(error)) => Err(error),
        Err(fault) => Ok(First::Fault(fault.label())),
    }
}

/// Takes the step that a line asks for.
fn take(core: &mut Core, asked: &Asked) -> Result<Seen, StepFault>
    ensures { IsTakenOrRefused core.old core.new (step_of asked.now) result }
{
    match asked {
        Asked::Look { who } => core.look(*who),
        Asked::Reserve {
            sender,
            body,
            closes,
        } => core.reserve(*sender, body.commands(), *closes),
        Asked::Write { sender, slot, half } => core.write(*sender, *slot, *half),
        Asked::Flip {
            sender,
            slot,
            count,
        } => core.flip(*sender, *slot, *count),
        Asked::Test { slot, count } => core.test(*slot, *count),
        Asked::Read { slot, half } => core.read(*slot, *half),
        Asked::Advance { count } => core.advance(*count),
        Asked::Close { sender } => core.close(*sender),
        Asked::Acknowledge { sender, number } => core.acknowledge(*sender, *number),
        Asked::Ask { sender } => core.ask(*sender),
    }
}

/// Serves a step, and returns whether the run goes on.
fn serve_step(
    core: &mut Core,
    number: u64,
    asked: &Asked,
    is_counted: bool,
    reply: &mut String,
) -> Result<bool, AllocError>
    ensures { IfOk result (λ goes_on.
        Acts Stands (λ wanting.
        step_effect number (step_of asked.now) is_counted) core.old core.new
        (string_bytes reply.old) (string_bytes reply.new) goes_on) }
{
    match take(core, asked) {
        Ok(seen) => {
            say_answer(asked, is_counted, seen, reply)?;
            Ok(true)
        }
        Err(fault) => {
            say_step_fault(number, fault, reply)?;
            Ok(false)
        }
    }
}

/// The lines of a schedule, which keeps a ring.
pub(crate) struct Schedule;

impl ScriptKind for Schedule {
    ghost use Rattle.schedule.specs.ScheduleText.{State, schedules};

    type Request = Request;

    type Kept = Core;

    ghost State = { State };

    ghost stands = { Stands };

    ghost kind = { schedules };

    fn nothing() -> Request {
        Request::Nothing
    }

    fn parse_named(alloc: Global, name: &[u8], rest: &[u8]) -> Result<Option<Request>, AllocError> {
        parse_named(alloc, name, rest)
    }

    #[tactic(auto, unfolding(crate::specs::ScheduleText::first_served))]
    fn first(alloc: Global, request: &Request) -> Result<First<Core>, AllocError> {
        match request {
            Request::Nothing => Ok(First::Nothing),
            Request::Ring { log2, senders } => first_ring(alloc, *log2, *senders),
            Request::Step { .. } => Ok(First::Fault("no ring")),
        }
    }

    #[tactic(auto, unfolding(crate::specs::ScheduleText::served))]
    fn serve_made(
        core: &mut Core,
        number: u64,
        request: &Request,
        reply: &mut String,
    ) -> Result<bool, AllocError> {
        match request {
            Request::Ring { .. } => {
                say_fault(number, "second ring", reply)?;
                Ok(false)
            }
            Request::Nothing => Ok(true),
            Request::Step { asked, is_counted } => serve_step(
                core,
                number,
                asked,
                *is_counted,
                reply,
            ),
        }
    }

    fn holds(_: &Core) {}
}
