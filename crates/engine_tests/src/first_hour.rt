//! A driver's first hour, as docs/GUIDE.md tells it.
ghost use Rattle.std.specs.Prelude.{◌≡◌, []};

use batch::Batch;
use caches::{Caches, Scope, Tag};
use cmdcodec::{Asid, Page, Raw, Vmid};
use engine::{Engine, Finished, Remedy, RunAnswer};
use ring::{Ring, RingFault, Sender};
use std::alloc::AllocError;

/// Brings all parts of a ring of one sender together.
fn finish(
    ring: Ring,
    engine: Engine,
    mut senders: Vec<Sender>,
    sender: Sender,
) -> Result<Finished, AllocError>
    requires engine { engine.consumer.ring ≡ ring }
    requires senders { senders.items ≡ [] }
    requires one { ring.made_with.senders ≡ 1 }
    requires sender { sender.ring ≡ ring }
    requires number { sender.number ≡ 0 }
{
    senders.push(sender)?;
    Ok(engine.finish(ring, senders))
}

#[test]
fn a_driver_unmaps_pages(rt: HostRuntime) -> Result<(), RingFault> {
    // A ring of 2^4 slots with one sender, who may send 100 batches, and a unit with room for 8 entries.
    let (ring, mut senders, consumer) = Ring::new(rt.alloc(), 4, 1, 100)?;
    let caches = Caches::new(rt.alloc(), 8).expect(&rt, "caches");
    let mut engine = Engine::new(consumer, caches);

    // The unit has cached the translation of page 0x100, in address space 2 of virtual machine 1.
    let vmid = Vmid::new(1).expect(&rt, "a virtual machine");
    let asid = Asid::new(2).expect(&rt, "an address space");
    let page = Page::new(0x100).expect(&rt, "a page");
    let tag = Tag::S1 {
        vmid,
        scope: Scope::Of(asid),
        page,
        span: 0,
    };
    let filled = engine.fill(tag, 900).is_ok();
    assert!(rt; filled);

    // The driver unmaps 16 pages from there on, and sends their invalidation with its CMD_SYNC.
    let unmapped = Batch::range(vmid, asid, page, 16).expect(&rt, "a batch");
    let sender = senders.pop().expect(&rt, "a sender");
    let Ok((mut sender, receipt)) = sender.send(&ring, &unmapped, 10) else {
        panic!(rt; "no room");
    };

    // Sent isn't done: the unit still knows the page, so it may not be given to anybody else yet.
    assert!(rt; !sender.is_done(&ring, &receipt));
    assert!(rt; engine.lookup(&tag).is_some());

    // The unit takes what is in the ring: the invalidation, and then the CMD_SYNC.
    let taken = engine.step_run(&ring, 64);
    assert_eq!(rt;
        taken,
        RunAnswer::Applied {
            count: 2,
            removed: 1
        }
    );

    // Now the driver is told, and no entry is left that its invalidation covers.
    assert!(rt; sender.is_done(&ring, &receipt));
    assert!(rt; engine.lookup(&tag).is_none());

    // Both go on. Every completion that this sender saw holds of the caches as they are now.
    engine.told(&ring, &mut sender);

    // At the end all parts come together.
    let end = finish(ring, engine, senders, sender).expect(&rt, "memory");
    assert_eq!(rt; (end.summary.reserved(), end.summary.taken()), (2, 2));
    Ok(())
}

/// How a device model serves its queue when it is rung: it takes all that is handed over, and says whether it stopped at
/// an error. A command that was reserved and isn't handed over yet is found the next time.
fn serve(ring: &Ring, engine: &mut Engine) -> bool
    requires { engine.old.consumer.ring ≡ ring.now }
    ensures { engine.new.consumer.ring ≡ ring.now }
{
    for _ in 0..u64::MAX {
        match engine.step_run(ring, 64) {
            RunAnswer::Applied { .. } | RunAnswer::Replaced(_) => {}
            RunAnswer::Stopped(_) | RunAnswer::StillStopped => return true,
            RunAnswer::Empty | RunAnswer::Drained | RunAnswer::Unwritten | RunAnswer::Exhausted =>
                return false,
        }
    }
    false
}

#[test]
fn a_device_model_serves_its_queue(rt: HostRuntime) -> Result<(), RingFault> {
    let (ring, mut senders, consumer) = Ring::new(rt.alloc(), 4, 1, 100)?;
    let caches = Caches::new(rt.alloc(), 8).expect(&rt, "caches");
    let mut engine = Engine::new(consumer, caches);
    let illegal = Raw { lo: 0xff, hi: 0 };
    let wrong = Batch::new(illegal).expect(&rt, "a batch");
    let sender = senders.pop().expect(&rt, "a sender");
    let Ok((mut sender, receipt)) = sender.send(&ring, &wrong, 10) else {
        panic!(rt; "no room");
    };

    // The device is rung, and stops at the error. Its registers are what the driver reads.
    assert!(rt; serve(&ring, &mut engine));
    let registers = engine.registers(&ring);
    assert_eq!(rt; registers.cons, 0x0100_0000);
    assert_eq!(rt; (registers.gerror, registers.gerrorn), (1, 0));

    // Software writes GERRORN, and has the command replaced. Then the queue goes on.
    let acknowledged = engine.acknowledge(1, Remedy::Replace).is_ok();
    assert!(rt; acknowledged);
    assert!(rt; !serve(&ring, &mut engine));
    assert!(rt; sender.is_done(&ring, &receipt));

    let end = finish(ring, engine, senders, sender).expect(&rt, "memory");
    assert_eq!(rt; (end.counts.applied(), end.counts.replaced()), (1, 1));
    Ok(())
}
