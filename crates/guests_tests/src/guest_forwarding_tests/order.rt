//! Batch behind batch.
use crate::guest_forwarding_tests::words::{ADDRESS_SPACE, DESCRIPTORS, SYNC, guest};
use caches::Caches;
use engine::{Engine, RunAnswer};
use guest_commands::{Ended, Stop};
use guest_forwarding::{Forwarded, Forwarding, carried_out_is_applied, no_older_entry_is_held};
use ring::{Ring, RingFault};

#[test]
fn told_only_behind_the_last(rt: HostRuntime) -> Result<(), RingFault> {
    carried_out_is_applied();
    no_older_entry_is_held();
    let (ring, mut senders, consumer) = Ring::new(rt.alloc(), 4, 1, 100)?;
    let sender = senders.pop().expect(&rt, "one sender");
    let caches = Caches::new(rt.alloc(), 8).expect(&rt, "1 to 65,536");
    let mut engine = Engine::new(consumer, caches);
    let guest = guest(&rt);
    let mut forwarding = Forwarding::new(&sender);
    assert!(rt; forwarding.last().is_none());
    let Ok(forwarded) = forwarding.forward(&guest, &ring, sender, &[ADDRESS_SPACE], 1) else {
        panic!(rt; "it fits");
    };
    let Forwarded {
        sender,
        consumed,
        ended,
    } = forwarded;
    assert!(rt; consumed == 1 && ended == Ended::End);
    let Ok(forwarded) = forwarding.forward(&guest, &ring, sender, &[DESCRIPTORS, SYNC], 1) else {
        panic!(rt; "it fits");
    };
    let Forwarded {
        mut sender,
        consumed,
        ended,
    } = forwarded;
    assert!(rt; consumed == 1 && ended == Ended::At(Stop::Sync));
    let last = forwarding.last().expect(&rt, "the second batch");
    assert_eq!(rt; last.number(), 2);
    // The first batch, a command and its CMD_SYNC, isn't enough.
    let (count, removed) = (2, 0);
    assert_eq!(rt;
        engine.step_run(&ring, 2),
        RunAnswer::Applied { count, removed }
    );
    assert!(rt; !forwarding.is_sync_complete(&ring, &mut sender));
    // The second has two commands, one for each stream of the host.
    let (count, removed) = (3, 0);
    assert_eq!(rt;
        engine.step_run(&ring, 64),
        RunAnswer::Applied { count, removed }
    );
    assert!(rt; forwarding.is_sync_complete(&ring, &mut sender));
    Ok(())
}
