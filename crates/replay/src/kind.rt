//! Replays, a kind of script.
ghost use Rattle.std.specs.Prelude.{IfOk};
ghost use Rattle.script.specs.Standing.{Begins};
ghost use Rattle.simulator.specs.Shapes.{shape_fault};
ghost use Rattle.simulator.specs.Standing.{Stands};
ghost use Rattle.replay.specs.effects.RingLine.{ring_or_fault};

use crate::lines::serve_made;
use crate::parsing::parse_named;
use crate::request::Request;
use ring::RingFault;
use script::{First, ScriptKind};
use simulator::{Shape, ShapeFault, Simulator};
use std::alloc::{AllocError, Global};

/// Makes a ring and its unit, if the numbers are in range.
fn first_ring(alloc: Global, shape: &Shape) -> Result<First<Simulator>, AllocError>
    ensures { IfOk result (λ first.
        Begins Stands first (λ number. ring_or_fault number shape.now (shape_fault shape.now))) }
{
    match Simulator::new(alloc, shape) {
        Ok(simulator) => Ok(First::Made {
            log2: shape.log2,
            kept: simulator,
        }),
        Err(ShapeFault::Ring(RingFault::Memory(error))) => Err(error),
        Err(fault) => Ok(First::Fault(fault.label())),
    }
}

/// The lines of a replay, which keeps a ring and its unit.
pub(crate) struct Replay;

impl ScriptKind for Replay {
    ghost use Rattle.simulator.specs.State.{State};
    ghost use Rattle.replay.specs.ReplayText.{replays};

    type Request = Request;

    type Kept = Simulator;

    ghost State = { State };

    ghost stands = { Stands };

    ghost kind = { replays };

    fn nothing() -> Request {
        Request::Nothing
    }

    fn parse_named(alloc: Global, name: &[u8], rest: &[u8]) -> Result<Option<Request>, AllocError> {
        parse_named(alloc, name, rest)
    }

    #[tactic(auto, unfolding(crate::specs::ReplayText::first_served))]
    fn first(alloc: Global, request: &Request) -> Result<First<Simulator>, AllocError> {
        match request {
            Request::Nothing => Ok(First::Nothing),
            Request::Ring(shape) => first_ring(alloc, shape),
            Request::Fill { .. }
            | Request::Evict { .. }
            | Request::Lookup { .. }
            | Request::Send(_)
            | Request::Publish { .. }
            | Request::Step { .. }
            | Request::Acknowledge { .. }
            | Request::Done { .. }
            | Request::Look { .. }
            | Request::Close { .. }
            | Request::Dump => Ok(First::Fault("no ring")),
        }
    }

    fn serve_made(
        simulator: &mut Simulator,
        number: u64,
        request: &Request,
        reply: &mut String,
    ) -> Result<bool, AllocError> {
        serve_made(simulator, number, request, reply)
    }

    fn holds(simulator: &Simulator) {
        simulator.run_stands();
    }
}
