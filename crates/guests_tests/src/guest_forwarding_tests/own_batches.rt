//! A stream that the guest configures: the hypervisor sends the host's CMD_CFGI_STE.
use crate::guest_forwarding_tests::words::{PREFETCH, guest};
use batch::BorrowedBatch;
use caches::{Caches, Tag};
use cmdcodec::{Raw, Sid};
use engine::{Engine, RunAnswer};
use guest_commands::{Ended, Stop};
use guest_forwarding::{Forwarded, Forwarding};
use ring::{Ring, RingFault};

#[test]
fn a_sync_waits_for_them(rt: HostRuntime) -> Result<(), RingFault> {
    let (ring, mut senders, consumer) = Ring::new(rt.alloc(), 3, 1, 100)?;
    let sender = senders.pop().expect(&rt, "one sender");
    let caches = Caches::new(rt.alloc(), 8).expect(&rt, "1 to 65,536");
    let mut engine = Engine::new(consumer, caches);
    let sid = Sid::new(0x104).expect(&rt, "32 bits");
    assert!(rt; engine.fill(Tag::Ste { sid }, 70).is_ok());
    let mut forwarding = Forwarding::new(&sender);
    // CMD_CFGI_STE of its stream 4, which it has two of on the host.
    let entry = Raw {
        lo: 0x0000_0004_0000_0003,
        hi: 0,
    };
    let guest = guest(&rt);
    let Ok(forwarded) = forwarding.forward(&guest, &ring, sender, &[PREFETCH, entry], 1) else {
        panic!(rt; "nothing is sent");
    };
    let Forwarded {
        sender,
        consumed,
        ended,
    } = forwarded;
    let Ended::At(Stop::Configure(command)) = ended else {
        panic!(rt; "the hypervisor carries it out");
    };
    assert_eq!(rt; consumed, 1);
    let mut streams = guest.configuration(&command);
    let first = streams.next().expect(&rt, "0x104");
    let second = streams.next().expect(&rt, "0x105");
    let words = [
        first.host.invalidate_entry(),
        second.host.invalidate_entry(),
    ];
    let batch = BorrowedBatch::new(&words)
        .ok()
        .expect(&rt, "1 to 63 commands");
    let Ok(mut sender) = forwarding.send(&ring, sender, batch, 1) else {
        panic!(rt; "it fits");
    };
    assert!(rt; !forwarding.is_sync_complete(&ring, &mut sender));
    let (count, removed) = (3, 1);
    assert_eq!(rt;
        engine.step_run(&ring, 64),
        RunAnswer::Applied { count, removed }
    );
    assert!(rt; forwarding.is_sync_complete(&ring, &mut sender));
    Ok(())
}
