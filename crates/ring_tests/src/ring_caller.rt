//! The caller that ring's README shows.
ghost use Rattle.std.specs.Prelude.{◌≡◌};
ghost use Rattle.ringcore.specs.world.World.{outcome_of};

use batch::Batch;
use cmdcodec::{Raw, decode};
use ring::{Consumer, Device, Outcome, Ring, RingFault, Taken};

/// CMD_CFGI_STE of stream 5 with Leaf 1.
const CFGI_STE: Raw = Raw {
    lo: 0x0000_0005_0000_0003,
    hi: 1,
};

/// A device that has no caches: it is settled whatever was taken.
struct NoCaches;

impl Device for NoCaches {
    ghost use Rattle.std.specs.Prelude.{⊤};

    ghost settled = { λ device taken. ⊤ };
}

fn outcome(raw: Raw) -> Outcome
    ensures { result ≡ outcome_of raw }
{
    match decode(raw) {
        Ok(_) => Outcome::Applied,
        Err(_) => Outcome::Replaced,
    }
}

/// Takes the command at the head, if one was handed over.
fn take(ring: &Ring, consumer: Consumer<NoCaches>) -> Consumer<NoCaches>
    requires { consumer.ring ≡ ring.now }
    ensures { result.ring ≡ ring.now }
{
    match consumer.take(ring) {
        Taken::Empty(consumer) | Taken::Drained(consumer) | Taken::Unwritten(consumer) => consumer,
        Taken::Ready(pending) => {
            let outcome = outcome(pending.raw());
            pending.complete(ring, outcome, &NoCaches)
        }
    }
}

#[test]
fn a_batch_and_its_sync(rt: HostRuntime) -> Result<(), RingFault> {
    let (ring, mut senders, consumer) = Ring::new(rt.alloc(), 3, 1, 100)?;
    let sender = senders.pop().expect(&rt, "one sender");
    let batch = Batch::new(CFGI_STE).expect(&rt, "no CMD_SYNC");
    // One try; where it is refused the sender comes back, with the cause.
    let Ok((mut sender, receipt)) = sender.send(&ring, &batch, 1) else {
        panic!(rt; "the batch is refused");
    };
    let consumer = take(&ring, consumer);
    assert!(rt; !sender.is_done(&ring, &receipt));
    let consumer = take(&ring, consumer);
    assert!(rt; sender.is_done(&ring, &receipt));
    senders.push(sender).expect(&rt, "room for one");
    let summary = ring.finish(senders, consumer);
    assert_eq!(rt; (summary.reserved(), summary.taken()), (2, 2));
    Ok(())
}
