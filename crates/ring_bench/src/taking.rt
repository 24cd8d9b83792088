//! The part of a consumer without an engine.
ghost use Rattle.std.specs.Prelude.{◌≡◌, ◌≤◌, Some, true, false, length, slice_get, take};
ghost use Rattle.cmdcodec.specs.declared.raw.Raw.{Raw as RawOf};
ghost use Rattle.ringcore.specs.world.World.{outcome_of};
ghost use Rattle.ringcore.specs.declared.world.event.Outcome.TheVariants.{Applied, Replaced};
ghost use Rattle.ring.specs.consumer.Completing.{HasOutcome};

use crate::nothing::Nothing;
use crate::taker::{MOST_COMMANDS, Pace, Taker};
use cmdcodec::{Raw, first_ill};
use ring::{Consumer, Outcome, PendingRun, Ring, TakenRun};

impl Taker for Consumer<Nothing> {
    ghost ring_of = { λ c. c.ring };

    fn take_all(self, ring: &Ring, wanted: u64, pace: Pace) -> u64 {
        let mut consumer = self;
        for _ in 0..u64::MAX {
            if consumer.taken() >= wanted {
                return consumer.taken();
            }
            consumer = match consumer.take_run(ring, MOST_COMMANDS) {
                TakenRun::Drained(consumer) => return consumer.taken(),
                TakenRun::Empty(consumer) | TakenRun::Unwritten(consumer) => consumer,
                TakenRun::Ready(run) => {
                    let count = run.len();
                    let consumer = complete(ring, run);
                    pace.let_more_come(count);
                    consumer
                }
            };
        }
        consumer.taken()
    }
}

/// Completes all that was read before the first illegal command, or that one if nothing is before it.
fn complete(ring: &Ring, run: PendingRun<Nothing>) -> Consumer<Nothing>
    requires { run.consumer.ring ≡ ring.now }
    ensures { result.ring ≡ ring.now }
{
    let count = count_legal(&run);
    if count == 0 {
        return run.complete_run(ring, 1, Outcome::Replaced, &Nothing);
    }
    run.complete_run(ring, count, Outcome::Applied, &Nothing)
}

/// Returns how many commands from the first on are legal.
fn count_legal(run: &PendingRun<Nothing>) -> u32
    ensures within { result ≤ length run.now.raws }
    ensures legal { HasOutcome Applied (take result run.now.raws) }
    ensures longest { (raw : RawOf) → slice_get run.now.raws result ≡ Some raw → Replaced ≡ outcome_of raw }
{
    let many = run.len();
    for count in 0..many {
        if !is_legal(run.get(count).unwrap()) {
            return count;
        }
    }
    many
}

fn is_legal(raw: Raw) -> bool
    ensures legal { result ≡ true → Applied ≡ outcome_of raw }
    ensures illegal { result ≡ false → Replaced ≡ outcome_of raw }
{
    first_ill(raw).is_none()
}
