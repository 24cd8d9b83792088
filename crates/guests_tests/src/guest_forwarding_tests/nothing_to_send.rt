//! Commands of the guest that mean nothing on the host.
use crate::guest_forwarding_tests::words::{PREFETCH, SYNC, guest};
use caches::Caches;
use engine::Engine;
use guest_commands::{Ended, Stop};
use guest_forwarding::{Forwarded, Forwarding};
use ring::{Ring, RingFault};

#[test]
fn consumed_without_a_batch(rt: HostRuntime) -> Result<(), RingFault> {
    let (ring, mut senders, consumer) = Ring::new(rt.alloc(), 3, 1, 100)?;
    let sender = senders.pop().expect(&rt, "one sender");
    let caches = Caches::new(rt.alloc(), 8).expect(&rt, "1 to 65,536");
    let _engine = Engine::new(consumer, caches);
    let mut forwarding = Forwarding::new(&sender);
    let commands = [PREFETCH, PREFETCH, SYNC];
    let Ok(forwarded) = forwarding.forward(&guest(&rt), &ring, sender, &commands, 1) else {
        panic!(rt; "nothing is sent");
    };
    let Forwarded {
        mut sender,
        consumed,
        ended,
    } = forwarded;
    assert!(rt; consumed == 2 && ended == Ended::At(Stop::Sync));
    assert!(rt; forwarding.last().is_none() && sender.batches_left(&ring) == 100);
    assert!(rt; forwarding.is_sync_complete(&ring, &mut sender));
    Ok(())
}
