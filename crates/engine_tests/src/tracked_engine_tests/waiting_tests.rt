//! A driver whose CMD_SYNC waits for a transaction, and a walk that its command overtakes.
ghost use Rattle.std.specs.Prelude.{◌≡◌, []};

use crate::tracked_engine_tests::calls::{STE, begin, end, stream};
use batch::Batch;
use caches::{Caches, Kind};
use engine::StepAnswer;
use ring::{Receipt, Ring, RingFault, Sender};
use std::process::Abort;
use tracked_engine::{TrackedEngine, TrackedFinished};
use transactions::{BeginFault, Ended, OutstandingCounts, TrackedStep, TrackedUnit, WalkFault};

fn send(rt: &impl Abort, ring: &Ring, sender: Sender) -> (Sender, Receipt)
    requires { sender.ring ≡ ring.now }
    ensures ring { result.0.ring ≡ ring.now }
    ensures id { result.0.number ≡ sender.number }
    ensures receipt { result.1.sender ≡ sender.number }
{
    let batch = Batch::from_raws(&[STE]).expect(rt, "one command");
    match sender.send(ring, &batch, 1) {
        Ok(sent) => sent,
        Err(_) => panic!(rt; "the batch is refused"),
    }
}

/// Has the engine apply a command, which removes so many entries.
fn expect_applied(rt: &impl Abort, ring: &Ring, engine: &mut TrackedEngine, entries: u32)
    requires { engine.old.consumer.ring ≡ ring.now }
    ensures { engine.new.consumer.ring ≡ ring.now }
{
    match engine.step(ring) {
        TrackedStep::Stepped(StepAnswer::Applied { removed, .. }) => {
            assert_eq!(rt; removed, entries);
        }
        _ => panic!(rt; "no command is applied"),
    }
}

/// Joins a ring of one sender.
fn finish(
    rt: &impl Abort,
    ring: Ring,
    mut senders: Vec<Sender>,
    sender: Sender,
    engine: TrackedEngine,
) -> TrackedFinished
    requires senders { senders.items ≡ [] }
    requires one { ring.made_with.senders ≡ 1 }
    requires sender { sender.ring ≡ ring }
    requires number { sender.number ≡ 0 }
    requires engine { engine.consumer.ring ≡ ring }
{
    senders.push(sender).expect(rt, "memory");
    engine.finish(ring, senders)
}

#[test]
fn a_sync_that_waits_for_a_transaction(rt: HostRuntime) -> Result<(), RingFault> {
    let (ring, mut senders, consumer) = Ring::new(rt.alloc(), 3, 1, 100)?;
    let sender = senders.pop().expect(&rt, "one sender");
    let caches = Caches::new(rt.alloc(), 8).expect(&rt, "1 to 65,536");
    let unit = TrackedUnit::new(rt.alloc(), 0, caches, 1).expect(&rt, "memory");
    let mut engine = TrackedEngine::new(consumer, unit);
    let tag = stream(&rt, 5);
    assert!(rt; engine.fill(tag, 70).is_ok());
    let transaction = begin(&rt, &mut engine, &tag);
    // The driver changed the entry in memory, and sends CMD_CFGI_STE of stream 5.
    let (mut sender, receipt) = send(&rt, &ring, sender);
    expect_applied(&rt, &ring, &mut engine, 1);
    assert!(rt; engine.lookup(&tag).is_none());
    let transactions = 1;
    assert_eq!(rt; engine.step(&ring), TrackedStep::Waiting { transactions });
    assert_eq!(rt; engine.step(&ring), TrackedStep::Waiting { transactions });
    assert!(rt; !sender.is_done(&ring, &receipt));
    assert_eq!(rt; engine.registers(&ring).cons, 1);
    let (outstanding, covered) = (1, 1);
    assert_eq!(rt;
        engine.outstanding(),
        OutstandingCounts {
            outstanding,
            covered
        }
    );
    assert_eq!(rt; end(&rt, &mut engine, transaction), Ended::LastCovered);
    expect_applied(&rt, &ring, &mut engine, 0);
    assert!(rt; sender.is_done(&ring, &receipt));
    engine.told(&ring, &mut sender);
    assert_eq!(rt; engine.step(&ring), TrackedStep::Stepped(StepAnswer::Empty));
    let left = finish(&rt, ring, senders, sender, engine);
    assert_eq!(rt; left.summary.taken(), 2);
    assert_eq!(rt; left.tracked.unit().counts().syncs(), 1);
    Ok(())
}

#[test]
fn a_walk_that_a_command_overtakes(rt: HostRuntime) -> Result<(), RingFault> {
    let (ring, mut senders, consumer) = Ring::new(rt.alloc(), 3, 1, 100)?;
    let sender = senders.pop().expect(&rt, "one sender");
    let caches = Caches::new(rt.alloc(), 8).expect(&rt, "1 to 65,536");
    let unit = TrackedUnit::new(rt.alloc(), 0, caches, 2).expect(&rt, "memory");
    let mut engine = TrackedEngine::new(consumer, unit);
    let (five, six) = (stream(&rt, 5), stream(&rt, 6));
    let walk = engine.begin_walk();
    let (sender, _) = send(&rt, &ring, sender);
    expect_applied(&rt, &ring, &mut engine, 0);
    assert_eq!(rt;
        engine.fill_walked(walk, five, 70),
        Err(WalkFault::Overtaken)
    );
    assert_eq!(rt; engine.fill_walked(walk, six, 71), Ok(None));
    match engine.begin_walked(walk, &five) {
        Ok(_transaction) => panic!(rt; "the walk was overtaken"),
        Err(fault) => {
            assert_eq!(rt; fault, BeginFault::Walked(WalkFault::Overtaken));
        }
    }
    // No command of stream 6 came, so the CMD_SYNC needn't wait for this one.
    let transaction = begin(&rt, &mut engine, &six);
    expect_applied(&rt, &ring, &mut engine, 0);
    assert!(rt; engine.evict(&six).is_some());
    assert_eq!(rt; engine.fill(five, 72), Ok(None));
    assert_eq!(rt; engine.fill(six, 73), Ok(None));
    assert_eq!(rt; engine.evict_older(2), 0);
    assert_eq!(rt; engine.evict_older(3), 2);
    assert_eq!(rt; engine.fill(five, 74), Ok(None));
    assert_eq!(rt; engine.evict_all(&Kind::Cd), 0);
    assert_eq!(rt; engine.evict_all(&Kind::Ste), 1);
    assert_eq!(rt; engine.counts().taken(), 2);
    // It is outstanding at the end, and ends on the unit that is left.
    let mut left = finish(&rt, ring, senders, sender, engine);
    match left.tracked.end(transaction) {
        Ok(_) => Ok(()),
        Err(_back) => panic!(rt; "it isn't outstanding there"),
    }
}
