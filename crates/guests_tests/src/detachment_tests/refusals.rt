//! Refused sends, which give everything back.
use crate::detachment_tests::device::{NoCaches, take};
use crate::detachment_tests::making::smmu;
use cmdcodec::Sid;
use detachment::{Detachment, Next, Unsent, a_sender_goes_on};
use ring::{Cause, Ring, RingFault};

#[test]
fn a_ring_that_is_too_small(rt: HostRuntime) -> Result<(), RingFault> {
    // Two slots, and three commands.
    let (ring, mut senders, _consumer) = Ring::new::<NoCaches>(rt.alloc(), 1, 1, 100)?;
    let sender = senders.pop().expect(&rt, "one sender");
    let sid = Sid::new(5).expect(&rt, "32 bits");
    let Err(Unsent { step, refused }) = Detachment::new(sid, &smmu(), true).send(&ring, sender, 3)
    else {
        panic!(rt; "it doesn't fit");
    };
    assert_eq!(rt; (step.sid(), refused.cause), (sid, Cause::TooLong));
    assert_eq!(rt; refused.sender.batches_left(&ring), 100);
    Ok(())
}

#[test]
fn an_endpoint_that_has_to_wait(rt: HostRuntime) -> Result<(), RingFault> {
    a_sender_goes_on();
    // Four slots: the first batch leaves room for one command.
    let (ring, mut senders, consumer) = Ring::new::<NoCaches>(rt.alloc(), 2, 1, 100)?;
    let sender = senders.pop().expect(&rt, "one sender");
    let sid = Sid::new(5).expect(&rt, "32 bits");
    let Ok((mut sender, configuring)) = Detachment::new(sid, &smmu(), true).send(&ring, sender, 1)
    else {
        panic!(rt; "it fits");
    };
    let consumer = take(&ring, consumer, 3);
    let Ok(Next::Endpoint(configured)) = configuring.look(&ring, &mut sender) else {
        panic!(rt; "all three are taken");
    };
    // Another stream's batch comes in between: the ring has room for one command, and two are to be sent.
    let other = Detachment::new(Sid::new(6).expect(&rt, "32 bits"), &smmu(), true);
    let Ok((sender, _other)) = other.send(&ring, sender, 1) else {
        panic!(rt; "it fits");
    };
    let Err(Unsent { step, refused }) = configured.send(&ring, sender, 2) else {
        panic!(rt; "it doesn't fit");
    };
    assert_eq!(rt; (step.sid(), refused.cause), (sid, Cause::Full));
    let consumer = take(&ring, consumer, 3);
    let Ok((mut sender, leaving)) = step.send(&ring, refused.sender, 1) else {
        panic!(rt; "it fits");
    };
    let _consumer = take(&ring, consumer, 2);
    assert!(rt; leaving.look(&ring, &mut sender).is_ok());
    Ok(())
}
