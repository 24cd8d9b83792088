//! Refused batches: nothing is consumed.
use crate::guest_forwarding_tests::words::{ADDRESS_SPACE, DESCRIPTORS, guest};
use caches::Caches;
use engine::{Engine, RunAnswer};
use guest_forwarding::Forwarding;
use ring::{Cause, Ring, RingFault};

#[test]
fn a_ring_that_is_too_small(rt: HostRuntime) -> Result<(), RingFault> {
    // Two slots, and three commands with the CMD_SYNC.
    let (ring, mut senders, consumer) = Ring::new(rt.alloc(), 1, 1, 100)?;
    let sender = senders.pop().expect(&rt, "one sender");
    let caches = Caches::new(rt.alloc(), 8).expect(&rt, "1 to 65,536");
    let _engine = Engine::new(consumer, caches);
    let mut forwarding = Forwarding::new(&sender);
    let Err(refused) = forwarding.forward(&guest(&rt), &ring, sender, &[DESCRIPTORS], 3) else {
        panic!(rt; "it doesn't fit");
    };
    assert_eq!(rt; refused.cause, Cause::TooLong);
    assert!(rt; forwarding.last().is_none());
    assert_eq!(rt; refused.sender.batches_left(&ring), 100);
    Ok(())
}

#[test]
fn a_full_ring(rt: HostRuntime) -> Result<(), RingFault> {
    // Four slots: the first batch leaves room for one command.
    let (ring, mut senders, consumer) = Ring::new(rt.alloc(), 2, 1, 100)?;
    let sender = senders.pop().expect(&rt, "one sender");
    let caches = Caches::new(rt.alloc(), 8).expect(&rt, "1 to 65,536");
    let mut engine = Engine::new(consumer, caches);
    let guest = guest(&rt);
    let mut forwarding = Forwarding::new(&sender);
    let Ok(forwarded) = forwarding.forward(&guest, &ring, sender, &[DESCRIPTORS], 1) else {
        panic!(rt; "it fits");
    };
    let commands = [ADDRESS_SPACE];
    let Err(refused) = forwarding.forward(&guest, &ring, forwarded.sender, &commands, 2) else {
        panic!(rt; "it doesn't fit");
    };
    assert_eq!(rt; refused.cause, Cause::Full);
    let (count, removed) = (3, 0);
    assert_eq!(rt;
        engine.step_run(&ring, 64),
        RunAnswer::Applied { count, removed }
    );
    // What is consumed is carried out, and the rest is tried again.
    let mut sender = refused.sender;
    assert!(rt; forwarding.is_sync_complete(&ring, &mut sender));
    let Ok(forwarded) = forwarding.forward(&guest, &ring, sender, &commands, 1) else {
        panic!(rt; "it fits");
    };
    let mut sender = forwarded.sender;
    assert!(rt; !forwarding.is_sync_complete(&ring, &mut sender));
    Ok(())
}
