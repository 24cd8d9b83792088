//! Runs of commands that end ahead of a CMD_SYNC which waits for a transaction.
ghost use Rattle.std.specs.Prelude.{◌≡◌};

use crate::tracked_engine_tests::calls::{STE, begin, end, stream};
use batch::Batch;
use caches::Caches;
use engine::{Completion, RunAnswer};
use ring::{Ring, RingFault};
use std::process::Abort;
use tracked_engine::TrackedEngine;
use transactions::{TrackedRun, TrackedUnit};

/// Has the engine take a run, which applies so many commands and removes so many entries.
fn expect_run(rt: &impl Abort, ring: &Ring, engine: &mut TrackedEngine, count: u32, removed: u32)
    requires { engine.old.consumer.ring ≡ ring.now }
    ensures { engine.new.consumer.ring ≡ ring.now }
{
    let applied = TrackedRun::Ran(RunAnswer::Applied { count, removed });
    assert_eq!(rt; engine.step_run(ring, 64), applied);
}

#[test]
fn a_run_that_ends_ahead_of_a_sync_that_waits(rt: HostRuntime) -> Result<(), RingFault> {
    let (ring, mut senders, consumer) = Ring::new(rt.alloc(), 3, 1, 100)?;
    let sender = senders.pop().expect(&rt, "one sender");
    let caches = Caches::new(rt.alloc(), 8).expect(&rt, "1 to 65,536");
    let unit = TrackedUnit::new(rt.alloc(), 0, caches, 1).expect(&rt, "memory");
    let mut engine = TrackedEngine::new(consumer, unit);
    let tag = stream(&rt, 5);
    assert!(rt; engine.fill(tag, 70).is_ok());
    let transaction = begin(&rt, &mut engine, &tag);
    let batch = Batch::from_raws(&[STE, STE]).expect(&rt, "no CMD_SYNC");
    let Ok((mut sender, receipt)) = sender.send(&ring, &batch, 1) else {
        panic!(rt; "the batch is refused");
    };
    // Both commands, and not their CMD_SYNC.
    expect_run(&rt, &ring, &mut engine, 2, 1);
    let transactions = 1;
    assert_eq!(rt;
        engine.step_run(&ring, 64),
        TrackedRun::Waiting { transactions }
    );
    assert!(rt; !sender.is_done(&ring, &receipt));
    end(&rt, &mut engine, transaction);
    expect_run(&rt, &ring, &mut engine, 1, 0);
    assert!(rt; sender.is_done(&ring, &receipt));
    assert_eq!(rt;
        engine.step_run(&ring, 64),
        TrackedRun::Ran(RunAnswer::Empty)
    );
    Ok(())
}

#[test]
fn a_run_that_tells_what_it_completed(rt: HostRuntime) -> Result<(), RingFault> {
    let (ring, mut senders, consumer) = Ring::new(rt.alloc(), 3, 1, 100)?;
    let sender = senders.pop().expect(&rt, "one sender");
    let caches = Caches::new(rt.alloc(), 8).expect(&rt, "1 to 65,536");
    let unit = TrackedUnit::new(rt.alloc(), 0, caches, 1).expect(&rt, "memory");
    let mut engine = TrackedEngine::new(consumer, unit);
    let batch = Batch::from_raws(&[STE]).expect(&rt, "no CMD_SYNC");
    assert!(rt; sender.send(&ring, &batch, 1).is_ok());
    let mut completions = [Completion::default(); 2];
    let (count, removed) = (2, 0);
    let applied = TrackedRun::Ran(RunAnswer::Applied { count, removed });
    let told = engine.step_run_telling(&ring, 2, &mut completions);
    assert_eq!(rt; told, (applied, 1));
    let (sender, number) = (0, 1);
    assert_eq!(rt; completions[0], Completion { sender, number });
    assert_eq!(rt; completions[1], Completion::default());
    Ok(())
}
