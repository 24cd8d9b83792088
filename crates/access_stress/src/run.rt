//! Drivers and the model, each on a thread of its own.
ghost use Rattle.std.specs.Prelude.{◌≡◌};
ghost use Rattle.std.specs.List.{All};
ghost use Rattle.std.specs.Thread.{IsSync};

use crate::access::Ending;
use crate::driver::{ADDRESSES, drive};
use crate::model::{Plan, serve_all};
use crate::pages::Pages;
use crate::report::Report;
use caches::Caches;
use ring::{Ring, Sender};
use std::alloc::AllocGlobal;
use std::io;
use std::io::ErrorKind;
use std::thread::{Threads, join};
use tracked_engine::TrackedEngine;
use transactions::TrackedUnit;

const DRIVERS: u32 = 3;

/// The ring has `2^LOG2` slots.
const LOG2: u32 = 5;

/// How many entries the caches hold: fewer than there are addresses.
const CAPACITY: u32 = 8;

/// How many transactions may be outstanding.
const ROOM: u16 = 4;

/// Runs each driver on its own thread.
fn run_drivers<R: Threads + Sync>(rt: &R, ring: &Ring, mut senders: Vec<Sender>, pages: &Pages)
    requires { All (λ s. s.ring ≡ ring.now) senders.items }
{
    let Some(sender) = senders.pop() else {
        return;
    };
    join(
        rt,
        move ||
            requires { sender.ring ≡ ring.now }
        { drive(ring, sender, pages) },
        move ||
            requires { IsSync R.row × All (λ s. s.ring ≡ ring.now) senders.items }
        { run_drivers(rt, ring, senders, pages) },
    );
}

/// Runs the drivers and the model until so many accesses ended.
pub(crate) fn run<R: Threads + AllocGlobal + Sync>(
    rt: &R,
    accesses: u64,
    ending: Ending,
) -> io::Result<Report> {
    let Ok((ring, senders, consumer)) = Ring::new::<TrackedUnit>(
        rt.alloc(),
        LOG2,
        DRIVERS,
        u32::MAX,
    ) else {
        return Err(io::Error::from(ErrorKind::OutOfMemory));
    };
    let plan = Plan {
        addresses: DRIVERS * ADDRESSES,
        ending,
        accesses,
    };
    let (Ok(caches), Ok(pages)) = (
        Caches::new(rt.alloc(), CAPACITY),
        Pages::new(rt.alloc(), plan.addresses),
    ) else {
        return Err(io::Error::from(ErrorKind::OutOfMemory));
    };
    let Ok(unit) = TrackedUnit::new(rt.alloc(), 0, caches, ROOM) else {
        return Err(io::Error::from(ErrorKind::OutOfMemory));
    };
    let engine = TrackedEngine::new(consumer, unit);
    Ok(run_all(rt, &ring, senders, engine, &pages, plan))
}

fn run_all<R: Threads + Sync>(
    rt: &R,
    ring: &Ring,
    senders: Vec<Sender>,
    engine: TrackedEngine,
    pages: &Pages,
    plan: Plan,
) -> Report
    requires senders { All (λ s. s.ring ≡ ring.now) senders.items }
    requires engine { engine.consumer.ring ≡ ring.now }
{
    let ((), report) = join(
        rt,
        move ||
            requires { IsSync R.row × All (λ s. s.ring ≡ ring.now) senders.items }
        { run_drivers(rt, ring, senders, pages) },
        move || -> Report
            requires { engine.consumer.ring ≡ ring.now }
        { serve_all(ring, engine, pages, plan) },
    );
    report
}
