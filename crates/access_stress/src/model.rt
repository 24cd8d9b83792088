//! The device model: it serves the queue, and its devices access addresses.
ghost use Rattle.std.specs.Prelude.{◌≡◌};

use crate::access::{Access, Ending, begin, end};
use crate::pages::Pages;
use crate::report::Report;
use ring::Ring;
use tracked_engine::TrackedEngine;
use transactions::TrackedRun;

/// How often the queue is served while an access is under way.
const RUNS: u32 = 32;

/// What the devices do: at how many addresses they access pages, when their transactions end, and after how many accesses
/// the model is over.
#[derive(Clone, Copy)]
pub(crate) struct Plan {
    pub(crate) addresses: u32,
    pub(crate) ending: Ending,
    pub(crate) accesses: u64,
}

/// Serves what is in the ring.
fn serve(ring: &Ring, engine: &mut TrackedEngine, report: &mut Report)
    requires { engine.old.consumer.ring ≡ ring.now }
    ensures { engine.new.consumer.ring ≡ ring.now }
{
    match engine.step_run(ring, 64) {
        TrackedRun::Waiting { .. } => report.waiting = report.waiting.saturating_add(1),
        TrackedRun::Ran(_) => {}
    }
}

/// Serves what comes into the ring while accesses are under way.
fn serve_meanwhile(ring: &Ring, engine: &mut TrackedEngine, report: &mut Report)
    requires { engine.old.consumer.ring ≡ ring.now }
    ensures { engine.new.consumer.ring ≡ ring.now }
{
    for _ in 0..RUNS {
        serve(ring, engine, report);
    }
}

fn end_if_begun(
    engine: &mut TrackedEngine,
    pages: &Pages,
    access: Option<Access>,
    report: &mut Report,
)
    ensures { engine.new.consumer ≡ engine.old.consumer }
{
    match access {
        Some(access) => end(engine, pages, access, report),
        None => {}
    }
}

/// Two accesses, the second of which begins while the first is under way. The queue is served while they are.
fn turn(
    ring: &Ring,
    engine: &mut TrackedEngine,
    pages: &Pages,
    places: (u32, u32),
    ending: Ending,
    report: &mut Report,
)
    requires { engine.old.consumer.ring ≡ ring.now }
    ensures { engine.new.consumer.ring ≡ ring.now }
{
    let first = begin(engine, pages, places.0, ending, report);
    serve_meanwhile(ring, engine, report);
    let second = begin(engine, pages, places.1, ending, report);
    serve_meanwhile(ring, engine, report);
    end_if_begun(engine, pages, first, report);
    serve_meanwhile(ring, engine, report);
    end_if_begun(engine, pages, second, report);
}

/// Serves the queue and its devices until so many accesses ended.
pub(crate) fn serve_all(ring: &Ring, engine: TrackedEngine, pages: &Pages, plan: Plan) -> Report
    requires { engine.consumer.ring ≡ ring.now }
{
    let (mut engine, mut report) = (engine, Report::NONE);
    let addresses = plan.addresses.max(1);
    for at in 0..u32::MAX {
        if report.accesses >= plan.accesses {
            break;
        }
        let places = (at % addresses, at / 3 % addresses);
        turn(ring, &mut engine, pages, places, plan.ending, &mut report);
    }
    pages.end();
    report
}
