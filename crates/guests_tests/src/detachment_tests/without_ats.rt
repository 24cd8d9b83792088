//! Streams that are detached without CMD_ATC_INV.
use crate::detachment_tests::device::{NoCaches, take};
use crate::detachment_tests::making::{bare, smmu};
use cmdcodec::Sid;
use detachment::{Detachment, Next};
use ring::{Ring, RingFault};

#[test]
fn an_endpoint_without_ats(rt: HostRuntime) -> Result<(), RingFault> {
    let (ring, mut senders, consumer) = Ring::new::<NoCaches>(rt.alloc(), 3, 1, 100)?;
    let sender = senders.pop().expect(&rt, "one sender");
    let sid = Sid::new(5).expect(&rt, "32 bits");
    let Ok((mut sender, configuring)) = Detachment::new(sid, &smmu(), false).send(&ring, sender, 1)
    else {
        panic!(rt; "it fits");
    };
    let consumer = take(&ring, consumer, 2);
    let Err(configuring) = configuring.look(&ring, &mut sender) else {
        panic!(rt; "its CMD_SYNC isn't taken");
    };
    let _consumer = take(&ring, consumer, 1);
    let Ok(Next::Nothing(detached)) = configuring.look(&ring, &mut sender) else {
        panic!(rt; "all three are taken, and there is nothing to send to the endpoint");
    };
    detached.order_was_kept();
    assert_eq!(rt; detached.sid(), sid);
    Ok(())
}

#[test]
fn an_smmu_with_stage_2_alone(rt: HostRuntime) -> Result<(), RingFault> {
    let (ring, mut senders, consumer) = Ring::new::<NoCaches>(rt.alloc(), 3, 1, 100)?;
    let sender = senders.pop().expect(&rt, "one sender");
    let sid = Sid::new(5).expect(&rt, "32 bits");
    let Ok((mut sender, configuring)) = Detachment::new(sid, &bare(), true).send(&ring, sender, 1)
    else {
        panic!(rt; "it fits");
    };
    // CMD_CFGI_STE and CMD_SYNC.
    let _consumer = take(&ring, consumer, 2);
    assert!(rt; matches!(configuring.look(&ring, &mut sender), Ok(Next::Nothing(_))));
    Ok(())
}
