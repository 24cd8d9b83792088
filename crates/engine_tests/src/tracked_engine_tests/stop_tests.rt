//! An illegal command stops a tracked engine until software acknowledges it.
use batch::Batch;
use caches::Caches;
use cmdcodec::Raw;
use engine::{Remedy, StepAnswer};
use ring::{Ring, RingFault};
use tracked_engine::TrackedEngine;
use transactions::{TrackedStep, TrackedUnit};

/// An opcode that no command has.
const ILLEGAL: Raw = Raw { lo: 0xff, hi: 0 };

#[test]
fn a_stop_and_its_acknowledgement(rt: HostRuntime) -> Result<(), RingFault> {
    let (ring, mut senders, consumer) = Ring::new(rt.alloc(), 3, 1, 100)?;
    let sender = senders.pop().expect(&rt, "one sender");
    let caches = Caches::new(rt.alloc(), 8).expect(&rt, "1 to 65,536");
    let unit = TrackedUnit::new(rt.alloc(), 0, caches, 1).expect(&rt, "memory");
    let mut engine = TrackedEngine::new(consumer, unit);
    let batch = Batch::from_raws(&[ILLEGAL]).expect(&rt, "one command");
    let Ok((mut sender, receipt)) = sender.send(&ring, &batch, 1) else {
        panic!(rt; "the batch is refused");
    };
    let stopped = engine.step(&ring);
    assert!(rt; matches!(stopped, TrackedStep::Stepped(StepAnswer::Stopped(_))));
    assert!(rt; engine.stopped());
    let registers = engine.registers(&ring);
    assert_eq!(rt; (registers.gerror, registers.gerrorn), (1, 0));
    assert_eq!(rt;
        engine.step(&ring),
        TrackedStep::Stepped(StepAnswer::StillStopped)
    );
    assert!(rt; engine.acknowledge(1, Remedy::Replace).is_ok());
    let replaced = engine.step(&ring);
    assert!(rt; matches!(replaced, TrackedStep::Stepped(StepAnswer::Replaced(_))));
    let synced = engine.step(&ring);
    assert!(rt; matches!(synced, TrackedStep::Stepped(StepAnswer::Applied { .. })));
    assert!(rt; sender.is_done(&ring, &receipt));
    // The engine comes apart, and its parts make one again.
    let (consumer, unit) = engine.into_parts();
    let mut engine = TrackedEngine::new(consumer, unit);
    engine.told(&ring, &mut sender);
    engine.is_tracked();
    assert_eq!(rt; engine.unit().counts().replaced(), 1);
    Ok(())
}
