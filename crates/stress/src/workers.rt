//! All workers of a run at the same time.
ghost use Rattle.std.specs.Prelude.{◌≡◌, vec_capacity};
ghost use Rattle.std.specs.List.{All};
ghost use Rattle.std.specs.Thread.{IsSync};
ghost use Rattle.stress.specs.EngineTurns.{GoesOn};
ghost use Rattle.stress.specs.Workers.{assignments, assignment};

use crate::engine_turns::run_engine;
use crate::gate::Gate;
use crate::worker::Worker;
use engine::Engine;
use ring::Ring;
use std::thread::{Threads, join};

/// Runs each sender's worker on its own thread, and returns them in their order.
fn run_senders<R: Threads + Sync, G: Gate + Sync>(
    rt: &R,
    ring: &Ring,
    gate: &G,
    mut workers: Vec<Worker>,
) -> Vec<Worker>
    requires { All (λ w. w.sender.ring ≡ ring.now) workers.items }
    ensures assignments { assignments result.items ≡ assignments workers.items }
    ensures room { vec_capacity result ≡ vec_capacity workers }
{
    let Some(worker) = workers.pop() else {
        return workers;
    };
    let (worker, mut workers) = join(
        rt,
        move || -> Worker
            requires { IsSync G.row × (worker.sender.ring ≡ ring.now) }
            ensures { assignment result ≡ assignment worker }
        { worker.run(ring, gate) },
        move || -> Vec<Worker>
            requires { IsSync R.row × IsSync G.row
                × All (λ w. w.sender.ring ≡ ring.now) workers.items }
            ensures { (assignments result.items ≡ assignments workers.items)
                × (vec_capacity result ≡ vec_capacity workers) }
        { run_senders(rt, ring, gate, workers) },
    );
    workers.push_reserved(worker);
    workers
}

/// Runs the engine and each sender's worker, each on its own thread.
pub(crate) fn run_at_once<R: Threads + Sync, G: Gate + Sync>(
    rt: &R,
    ring: &Ring,
    gate: &G,
    turns: u32,
    engine: Engine,
    workers: Vec<Worker>,
) -> (Engine, Vec<Worker>)
    requires engine { engine.consumer.ring ≡ ring.now }
    requires workers { All (λ w. w.sender.ring ≡ ring.now) workers.items }
    ensures engine { GoesOn turns engine result.0 }
    ensures workers { assignments result.1.items ≡ assignments workers.items }
{
    join(
        rt,
        move || -> Engine
            requires { IsSync G.row × (engine.consumer.ring ≡ ring.now) }
            ensures { GoesOn turns engine result }
        { run_engine(ring, gate, turns, engine) },
        move || -> Vec<Worker>
            requires { IsSync R.row × IsSync G.row
                × All (λ w. w.sender.ring ≡ ring.now) workers.items }
            ensures { assignments result.items ≡ assignments workers.items }
        { run_senders(rt, ring, gate, workers) },
    )
}
