//! The caller that detachment's README shows.
ghost use Rattle.std.specs.Prelude.{◌≡◌, []};

use crate::detachment_tests::making::smmu;
use caches::{Caches, Tag};
use cmdcodec::{Page, Sid};
use detachment::{Detachment, Next};
use engine::{Engine, Finished, RunAnswer};
use ring::{Ring, RingFault, Sender};
use std::alloc::AllocError;

/// Joins the engine and the ring's only sender.
fn finish(
    ring: Ring,
    mut senders: Vec<Sender>,
    sender: Sender,
    engine: Engine,
) -> Result<Finished, AllocError>
    requires senders { senders.items ≡ [] }
    requires one { ring.made_with.senders ≡ 1 }
    requires sender { sender.ring ≡ ring }
    requires number { sender.number ≡ 0 }
    requires engine { engine.consumer.ring ≡ ring }
{
    senders.push(sender)?;
    Ok(engine.finish(ring, senders))
}

#[test]
fn a_stream_leaves(rt: HostRuntime) -> Result<(), RingFault> {
    let (ring, mut senders, consumer) = Ring::new(rt.alloc(), 3, 1, 100)?;
    let sender = senders.pop().expect(&rt, "one sender");
    let caches = Caches::new(rt.alloc(), 8).expect(&rt, "1 to 65,536");
    let mut engine = Engine::new(consumer, caches);
    let sid = Sid::new(5).expect(&rt, "32 bits");
    let entry = Tag::Ste { sid };
    let page = Tag::Atc {
        sid,
        ssid: None,
        page: Page::new(0x10).expect(&rt, "52 bits"),
        span: 0,
    };
    assert!(rt; engine.fill(entry, 70).is_ok());
    // The driver has cleared the stream table entry in memory. Its cached copy goes first.
    let Ok((mut sender, configuring)) = Detachment::new(sid, &smmu(), true).send(&ring, sender, 1)
    else {
        panic!(rt; "the batch is refused");
    };
    let Err(configuring) = configuring.look(&ring, &mut sender) else {
        panic!(rt; "nothing is taken");
    };
    // Until then the endpoint may translate by it.
    assert!(rt; engine.fill(page, 71).is_ok());
    let (count, removed) = (3, 1);
    assert_eq!(rt;
        engine.step_run(&ring, 64),
        RunAnswer::Applied { count, removed }
    );
    let Ok(Next::Endpoint(configured)) = configuring.look(&ring, &mut sender) else {
        panic!(rt; "its CMD_SYNC is complete");
    };
    // From here on it can't, and what it cached goes.
    let Ok((mut sender, leaving)) = configured.send(&ring, sender, 1) else {
        panic!(rt; "the batch is refused");
    };
    let (count, removed) = (2, 1);
    assert_eq!(rt;
        engine.step_run(&ring, 64),
        RunAnswer::Applied { count, removed }
    );
    let Ok(detached) = leaving.look(&ring, &mut sender) else {
        panic!(rt; "its CMD_SYNC is complete");
    };
    assert_eq!(rt; detached.sid(), sid);
    assert!(rt; engine.lookup(&entry).is_none() && engine.lookup(&page).is_none());
    let end = finish(ring, senders, sender, engine).expect(&rt, "memory");
    assert_eq!(rt; (end.summary.taken(), end.caches.len()), (5, 0));
    Ok(())
}
