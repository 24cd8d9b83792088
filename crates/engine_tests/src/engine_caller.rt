//! The caller that engine's README shows.
ghost use Rattle.std.specs.Prelude.{◌≡◌, []};

use batch::Batch;
use caches::{Caches, Tag};
use cmdcodec::{Raw, Sid};
use engine::{Engine, Finished, RunAnswer};
use ring::{Ring, RingFault, Sender};
use std::alloc::AllocError;

/// CMD_CFGI_STE of stream 5 with Leaf 1.
const CFGI_STE: Raw = Raw {
    lo: 0x0000_0005_0000_0003,
    hi: 1,
};

/// Joins the engine and the ring's only sender.
fn finish(
    ring: Ring,
    mut senders: Vec<Sender>,
    sender: Sender,
    engine: Engine,
) -> Result<Finished, AllocError>
    requires senders { senders.items ≡ [] }
    requires one { ring.made_with.senders ≡ 1 }
    requires sender { sender.ring ≡ ring }
    requires number { sender.number ≡ 0 }
    requires engine { engine.consumer.ring ≡ ring }
{
    senders.push(sender)?;
    Ok(engine.finish(ring, senders))
}

#[test]
fn a_stream_table_entry(rt: HostRuntime) -> Result<(), RingFault> {
    let (ring, mut senders, consumer) = Ring::new(rt.alloc(), 3, 1, 100)?;
    let sender = senders.pop().expect(&rt, "one sender");
    let caches = Caches::new(rt.alloc(), 8).expect(&rt, "1 to 65,536");
    let mut engine = Engine::new(consumer, caches);
    let sid = Sid::new(5).expect(&rt, "32 bits");
    let tag = Tag::Ste { sid };
    assert!(rt; engine.fill(tag, 70).is_ok());
    // The driver changed the entry in memory, and sends CMD_CFGI_STE of stream 5.
    let batch = Batch::new(CFGI_STE).expect(&rt, "no CMD_SYNC");
    let Ok((mut sender, receipt)) = sender.send(&ring, &batch, 1) else {
        panic!(rt; "the batch is refused");
    };
    assert!(rt; !sender.is_done(&ring, &receipt));
    // Both are taken: the command, and its CMD_SYNC.
    let (count, removed) = (2, 1);
    let applied = RunAnswer::Applied { count, removed };
    assert_eq!(rt; engine.step_run(&ring, 64), applied);
    assert!(rt; sender.is_done(&ring, &receipt));
    assert!(rt; engine.lookup(&tag).is_none());
    let end = finish(ring, senders, sender, engine).expect(&rt, "memory");
    assert_eq!(rt; (end.summary.taken(), end.caches.len()), (2, 0));
    Ok(())
}
