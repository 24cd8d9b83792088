//! A consumer of the tests, with a device that has no caches.
ghost use Rattle.std.specs.Prelude.{◌≡◌};
ghost use Rattle.ringcore.specs.world.World.{outcome_of};

use cmdcodec::{Raw, decode};
use ring::{Consumer, Device, Outcome, Ring, Taken};

/// A device that has no caches: it is settled whatever was taken.
pub struct NoCaches;

impl Device for NoCaches {
    ghost use Rattle.std.specs.Prelude.{⊤};

    ghost settled = { λ device taken. ⊤ };
}

fn outcome(raw: Raw) -> Outcome
    ensures { result ≡ outcome_of raw }
{
    match decode(raw) {
        Ok(_) => Outcome::Applied,
        Err(_) => Outcome::Replaced,
    }
}

/// Takes the command at the head, if one was handed over.
fn take_one(ring: &Ring, consumer: Consumer<NoCaches>) -> Consumer<NoCaches>
    requires { consumer.ring ≡ ring.now }
    ensures { result.ring ≡ ring.now }
{
    match consumer.take(ring) {
        Taken::Empty(consumer) | Taken::Drained(consumer) | Taken::Unwritten(consumer) => consumer,
        Taken::Ready(pending) => {
            let outcome = outcome(pending.raw());
            pending.complete(ring, outcome, &NoCaches)
        }
    }
}

/// Takes that many commands, if so many were handed over.
pub fn take(ring: &Ring, consumer: Consumer<NoCaches>, count: u32) -> Consumer<NoCaches>
    requires { consumer.ring ≡ ring.now }
    ensures { result.ring ≡ ring.now }
{
    let mut consumer = consumer;
    for _ in 0..count {
        consumer = take_one(ring, consumer);
    }
    consumer
}
