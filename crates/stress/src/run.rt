//! A whole run.
ghost use Rattle.std.specs.Prelude.{◌≡◌, ◌≤◌, [], OnErr, IfOk, Err, vec_capacity};
ghost use Rattle.std.specs.List.{All};
ghost use Rattle.ring.specs.NewRings.{made_with, new_senders};
ghost use Rattle.stress.specs.Plans.{IsPlan};
ghost use Rattle.stress.specs.Workers.{assignments, assignments_of};
ghost use Rattle.stress.specs.FirstEntries.{IsFilled};
ghost use Rattle.stress.specs.EngineTurns.{IsStarted};
ghost use Rattle.stress.specs.Reports.{IsAsPlanned, IsOfARun, IsUnfinished};

use crate::ending::{ask_all, employ, send_and_drain};
use crate::fault::StressFault;
use crate::first_entries::filled_engine;
use crate::gate::Gate;
use crate::plan::Plan;
use crate::report::Report;
use crate::room::Room;
use crate::worker::Worker;
use crate::workers::run_at_once;
use engine::Engine;
use ring::Ring;
use std::alloc::{AllocGlobal, Global};
use std::thread::Threads;

/// Runs a plan. First each sender and the engine run at the same time, each on its own thread, for as many turns as the
/// plan says; then what is left is sent and taken on one thread, the first sender closes the ring, each sender asks
/// which of its batches completed, and the ring is finished. Whatever the schedule, the totals are the plan's. Once the
/// workers start, no memory is taken.
///
/// Errors: S1 if memory runs out, before any worker starts; S2 if a batch was refused eight times after the workers'
/// end, or a drain didn't come to its end.
pub fn run_all<R: Threads + AllocGlobal + Sync, G: Gate + Sync>(
    rt: &R,
    plan: &Plan,
    gate: &G,
) -> Result<Report, StressFault>
    ensures planned { IfOk result (λ r. IsAsPlanned plan.now r) }
    ensures run { IfOk result (λ r. IsOfARun plan.now r) }
    ensures unfinished { result ≡ Err StressFault.Unfinished → IsUnfinished plan.now }
{
    let Start {
        ring,
        workers,
        engine,
        room,
    } = Start::new(rt.alloc(), *plan)?;
    let (engine, workers) = run_at_once(rt, &ring, gate, plan.turns(), engine, workers);
    finish(*plan, ring, workers, engine, room)
}

/// What a run begins with. All its memory is taken here.
#[derive(Drop)]
struct Start {
    ring: Ring,
    workers: Vec<Worker>,
    engine: Engine,
    room: Room,
}

impl Start {
    /// Errors: S1.
    fn new(alloc: Global, plan: Plan) -> Result<Start, StressFault>
        ensures ring { IfOk result (λ start. start.ring.made_with
            ≡ made_with plan.log2 plan.senders plan.batches) }
        ensures workers { IfOk result (λ start. assignments start.workers.items
            ≡ assignments_of plan (new_senders start.ring plan.senders)) }
        ensures filled { IfOk result (λ start. IsFilled plan.senders start.engine.unit) }
        ensures engine { IfOk result (λ start. start.engine.consumer.ring ≡ start.ring) }
        ensures senders { IfOk result (λ start. (start.room.senders.items ≡ [])
            × (plan.senders ≤ vec_capacity start.room.senders)) }
        ensures done { IfOk result (λ start. (start.room.done.items ≡ [])
            × (plan.senders ≤ vec_capacity start.room.done)) }
        ensures err { OnErr result (result ≡ Err StressFault.NoMemory) }
    {
        let Ok(room) = Room::new(alloc, plan.senders()) else {
            return Err(StressFault::NoMemory);
        };
        let Ok((ring, senders, consumer)) = Ring::new(
            alloc,
            plan.log2(),
            plan.senders(),
            plan.batches(),
        ) else {
            return Err(StressFault::NoMemory);
        };
        let Ok(engine) = filled_engine(alloc, consumer, plan.senders()) else {
            return Err(StressFault::NoMemory);
        };
        let Ok(workers) = employ(alloc, plan, senders) else {
            return Err(StressFault::NoMemory);
        };
        Ok(Start {
            ring,
            workers,
            engine,
            room,
        })
    }
}

/// Does what is left once all workers have ended.
///
/// Errors: S2.
fn finish(
    plan: Plan,
    ring: Ring,
    workers: Vec<Worker>,
    mut engine: Engine,
    room: Room,
) -> Result<Report, StressFault>
    requires plan { IsPlan plan }
    requires ring { ring.made_with ≡ made_with plan.log2 plan.senders plan.batches }
    requires workers { assignments workers.items
        ≡ assignments_of plan (new_senders ring plan.senders) }
    requires engine { IsStarted plan.senders plan.turns ring engine }
    requires senders { (room.senders.items ≡ []) × (plan.senders ≤ vec_capacity room.senders) }
    requires done { (room.done.items ≡ []) × (plan.senders ≤ vec_capacity room.done) }
    ensures planned { IfOk result (λ r. IsAsPlanned plan r) }
    ensures run { IfOk result (λ r. IsOfARun plan r) }
    ensures err { OnErr result (result ≡ Err StressFault.Unfinished) }
    ensures unfinished { OnErr result (IsUnfinished plan) }
{
    let senders = send_and_drain(plan, &ring, workers, room.senders, &mut engine)?;
    let (senders, done) = ask_all(plan, &ring, senders, room.done);
    let finished = engine.finish(ring, senders);
    Ok(Report::new(plan, finished, done))
}
