//! The caller that guest_forwarding's README shows.
use caches::{Caches, Scope, Tag};
use cmdcodec::{Asid, Page, Raw, Vmid};
use engine::{Engine, RunAnswer};
use guest_commands::{Ended, Guest, Stop};
use guest_forwarding::{Forwarded, Forwarding};
use ring::{Ring, RingFault};
use smmu_features::Smmu;
use std::process::Abort;

/// A translation of page 0x10 of address space 5.
fn translation<R: Abort>(rt: &R, vmid: Vmid) -> Tag {
    Tag::S1 {
        vmid,
        scope: Scope::Of(Asid::new(5).expect(rt, "16 bits")),
        page: Page::new(0x10).expect(rt, "52 bits"),
        span: 0,
    }
}

#[test]
fn a_guests_sync(rt: HostRuntime) -> Result<(), RingFault> {
    let (ring, mut senders, consumer) = Ring::new(rt.alloc(), 3, 1, 100)?;
    let sender = senders.pop().expect(&rt, "one sender");
    let caches = Caches::new(rt.alloc(), 8).expect(&rt, "1 to 65,536");
    let mut engine = Engine::new(consumer, caches);
    let smmu = Smmu::from_registers(0x4_1403, 0x210, 0x400, 0x70);
    let vmid = Vmid::new(0x21).expect(&rt, "16 bits");
    let guest = Guest::new(rt.alloc(), vmid, smmu).expect(&rt, "a VMID of the host");
    let own = translation(&rt, vmid);
    let others = translation(&rt, Vmid::new(0x22).expect(&rt, "16 bits"));
    assert!(rt; engine.fill(own, 70).is_ok());
    assert!(rt; engine.fill(others, 71).is_ok());
    // CMD_TLBI_NH_ASID of VMID 1 and ASID 5, and CMD_SYNC, as they were copied from the guest's queue.
    let commands = [
        Raw {
            lo: 0x0005_0001_0000_0011,
            hi: 0,
        },
        Raw { lo: 0x46, hi: 0 },
    ];
    let mut forwarding = Forwarding::new(&sender);
    let Ok(forwarded) = forwarding.forward(&guest, &ring, sender, &commands, 1) else {
        panic!(rt; "the batch is refused");
    };
    let Forwarded {
        mut sender,
        consumed,
        ended,
    } = forwarded;
    assert!(rt; consumed == 1 && ended == Ended::At(Stop::Sync));
    // The guest waits: nothing is taken.
    assert!(rt; !forwarding.is_sync_complete(&ring, &mut sender));
    let (count, removed) = (2, 1);
    assert_eq!(rt;
        engine.step_run(&ring, 64),
        RunAnswer::Applied { count, removed }
    );
    // Its entry is gone, and nobody else's. It may be told.
    assert!(rt; engine.lookup(&own).is_none() && engine.lookup(&others).is_some());
    assert!(rt; forwarding.is_sync_complete(&ring, &mut sender));
    Ok(())
}
