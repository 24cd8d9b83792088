//! A sender that sends other batches between the steps, and asks again and again.
ghost use Rattle.std.specs.Prelude.{◌≡◌, IfOk};
ghost use Rattle.ring.specs.sender.GoingOn.{WentOn};
ghost use Rattle.detachment.specs.Looking.{MaySend};

use crate::detachment_tests::device::{NoCaches, take};
use crate::detachment_tests::making::smmu;
use batch::Batch;
use cmdcodec::{Raw, Sid};
use detachment::{Configuring, Detachment, Next, a_sender_goes_on};
use ring::{Ring, RingFault, Sender};

/// CMD_CFGI_STE of stream 6 with Leaf 1.
const OTHER: Raw = Raw {
    lo: 0x0000_0006_0000_0003,
    hi: 1,
};

/// Asks up to `looks` times.
fn wait(
    ring: &Ring,
    configuring: Configuring,
    sender: &mut Sender,
    looks: u32,
) -> Result<Next, Configuring>
    requires ring { sender.old.ring ≡ ring.now }
    requires same_sender { WentOn configuring.sender sender.old }
    ensures ring { sender.new.ring ≡ ring.now }
    ensures id { sender.new.number ≡ sender.old.number }
    ensures may_send { IfOk result (MaySend sender.new) }
{
    let mut configuring = configuring;
    for _ in 0..looks {
        match configuring.look(ring, sender) {
            Ok(next) => return Ok(next),
            Err(again) => configuring = again,
        }
    }
    Err(configuring)
}

#[test]
fn another_batch_in_between(rt: HostRuntime) -> Result<(), RingFault> {
    a_sender_goes_on();
    let (ring, mut senders, consumer) = Ring::new::<NoCaches>(rt.alloc(), 3, 1, 100)?;
    let sender = senders.pop().expect(&rt, "one sender");
    let sid = Sid::new(5).expect(&rt, "32 bits");
    let Ok((sender, configuring)) = Detachment::new(sid, &smmu(), true).send(&ring, sender, 1)
    else {
        panic!(rt; "it fits");
    };
    let batch = Batch::new(OTHER).expect(&rt, "no CMD_SYNC");
    let Ok((mut sender, other)) = sender.send(&ring, &batch, 1) else {
        panic!(rt; "it fits");
    };
    let _consumer = take(&ring, consumer, 3);
    let Ok(Next::Endpoint(configured)) = wait(&ring, configuring, &mut sender, 2) else {
        panic!(rt; "its CMD_SYNC is complete");
    };
    assert!(rt; !sender.is_done(&ring, &other));
    assert_eq!(rt; configured.sid(), sid);
    Ok(())
}
