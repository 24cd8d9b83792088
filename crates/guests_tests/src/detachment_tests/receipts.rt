//! What each step tells: its stream, and the number of the CMD_SYNC that it waits for.
use crate::detachment_tests::device::{NoCaches, take};
use crate::detachment_tests::making::smmu;
use cmdcodec::Sid;
use detachment::{Detachment, Next, commands_cover_the_stream};
use ring::{Ring, RingFault};

#[test]
fn numbers_of_both_syncs(rt: HostRuntime) -> Result<(), RingFault> {
    commands_cover_the_stream();
    let (ring, mut senders, consumer) = Ring::new::<NoCaches>(rt.alloc(), 3, 1, 100)?;
    let sender = senders.pop().expect(&rt, "one sender");
    let sid = Sid::new(5).expect(&rt, "32 bits");
    let Ok((mut sender, configuring)) = Detachment::new(sid, &smmu(), true).send(&ring, sender, 1)
    else {
        panic!(rt; "it fits");
    };
    configuring.commands_are_reserved();
    assert_eq!(rt;
        (configuring.sid(), configuring.receipt().number()),
        (sid, 1)
    );
    let consumer = take(&ring, consumer, 3);
    let Ok(Next::Endpoint(configured)) = configuring.look(&ring, &mut sender) else {
        panic!(rt; "all three are taken");
    };
    configured.commands_are_applied();
    let Ok((mut sender, leaving)) = configured.send(&ring, sender, 1) else {
        panic!(rt; "it fits");
    };
    leaving.command_is_behind();
    assert_eq!(rt; (leaving.sid(), leaving.receipt().number()), (sid, 2));
    let _consumer = take(&ring, consumer, 2);
    let Ok(detached) = leaving.look(&ring, &mut sender) else {
        panic!(rt; "both are taken");
    };
    detached.order_was_kept();
    assert_eq!(rt; sender.done_up_to(&ring), 2);
    Ok(())
}
