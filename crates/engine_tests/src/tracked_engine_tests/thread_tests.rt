//! An engine that goes from thread to thread: a device translates on one, and the queue is served on another.
ghost use Rattle.std.specs.Prelude.{◌≡◌};

use crate::tracked_engine_tests::calls::{STE, stream};
use batch::Batch;
use caches::{Caches, Tag};
use cmdcodec::Sid;
use engine::RunAnswer;
use ring::{Ring, RingFault};
use std::thread::{Threads, join};
use tracked_engine::TrackedEngine;
use transactions::{Ended, TrackedRun, TrackedUnit, Transaction};

/// Stream 5's transaction begins, if its entry is held.
fn begin_of_stream(engine: TrackedEngine) -> (TrackedEngine, Option<Transaction>)
    ensures { result.0.consumer ≡ engine.consumer }
{
    let mut engine = engine;
    let sid = Sid::new(5).unwrap();
    match engine.begin(&Tag::Ste { sid }) {
        Ok((_entry, transaction)) => (engine, Some(transaction)),
        Err(_) => (engine, None),
    }
}

/// The same on the device's thread.
fn begin_elsewhere(rt: &impl Threads, engine: TrackedEngine) -> (TrackedEngine, Option<Transaction>)
    ensures { result.0.consumer ≡ engine.consumer }
{
    let (begun, ()) = join(
        rt,
        move || -> (TrackedEngine, Option<Transaction>)
            ensures { result.0.consumer ≡ engine.consumer }
        { begin_of_stream(engine) },
        || {},
    );
    begun
}

/// Takes what is ready in the ring.
fn serve(ring: &Ring, engine: TrackedEngine) -> (TrackedEngine, TrackedRun)
    requires { engine.consumer.ring ≡ ring.now }
    ensures { result.0.consumer.ring ≡ ring.now }
{
    let mut engine = engine;
    let run = engine.step_run(ring, 64);
    (engine, run)
}

/// The same on the queue's thread.
fn serve_elsewhere(
    rt: &impl Threads,
    ring: &Ring,
    engine: TrackedEngine,
) -> (TrackedEngine, TrackedRun)
    requires { engine.consumer.ring ≡ ring.now }
    ensures { result.0.consumer.ring ≡ ring.now }
{
    let (served, ()) = join(
        rt,
        move || -> (TrackedEngine, TrackedRun)
            requires { engine.consumer.ring ≡ ring.now }
            ensures { result.0.consumer.ring ≡ ring.entry.now }
        { serve(ring, engine) },
        || {},
    );
    served
}

#[test]
fn an_engine_that_goes_from_thread_to_thread(rt: HostRuntime) -> Result<(), RingFault> {
    let (ring, mut senders, consumer) = Ring::new(rt.alloc(), 3, 1, 100)?;
    let sender = senders.pop().expect(&rt, "one sender");
    let caches = Caches::new(rt.alloc(), 8).expect(&rt, "1 to 65,536");
    let unit = TrackedUnit::new(rt.alloc(), 0, caches, 1).expect(&rt, "memory");
    let mut engine = TrackedEngine::new(consumer, unit);
    assert!(rt; engine.fill(stream(&rt, 5), 70).is_ok());
    let (engine, Some(transaction)) = begin_elsewhere(&rt, engine) else {
        panic!(rt; "its entry is held");
    };
    let batch = Batch::from_raws(&[STE]).expect(&rt, "one command");
    let Ok((mut sender, receipt)) = sender.send(&ring, &batch, 1) else {
        panic!(rt; "the batch is refused");
    };
    let (engine, run) = serve_elsewhere(&rt, &ring, engine);
    let (count, removed) = (1, 1);
    assert_eq!(rt; run, TrackedRun::Ran(RunAnswer::Applied { count, removed }));
    let (mut engine, run) = serve_elsewhere(&rt, &ring, engine);
    let transactions = 1;
    assert_eq!(rt; run, TrackedRun::Waiting { transactions });
    assert!(rt; !sender.is_done(&ring, &receipt));
    match engine.end(transaction) {
        Ok(ended) => {
            assert_eq!(rt; ended, Ended::LastCovered);
        }
        Err(_back) => panic!(rt; "it is outstanding"),
    }
    let (_engine, run) = serve_elsewhere(&rt, &ring, engine);
    let (count, removed) = (1, 0);
    assert_eq!(rt; run, TrackedRun::Ran(RunAnswer::Applied { count, removed }));
    assert!(rt; sender.is_done(&ring, &receipt));
    Ok(())
}
