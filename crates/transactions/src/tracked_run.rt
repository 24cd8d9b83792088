//! A step of a run of commands, of a tracked unit with the consumer of a ring.
ghost use Rattle.std.specs.Prelude.{◌≡◌, ◌≤◌, ◌↔◌, length, map, take, slice_get, Some};
ghost use Rattle.cmdcodec.specs.declared.raw.Raw.{Raw as RawOf};
ghost use Rattle.ringcore.specs.declared.world.event.Outcome.TheVariants.{Applied as AsApplied};
ghost use Rattle.ring.specs.consumer.Completing.{taken_of, with_outcome};
ghost use Rattle.engine.specs.Stops.{IsStopped, MayComeNext};
ghost use Rattle.engine.specs.Counting.{taken};
ghost use Rattle.engine.specs.Engines.{IsExhausted};
ghost use Rattle.transactions.specs.Tracking.{StaysTracked};
ghost use Rattle.transactions.specs.Together.{AreTracked, HasGrown};
ghost use Rattle.transactions.specs.TrackedRuns.{AreAppliedTracked, EndsRun, HasRun, HasTold};

use crate::tracked::TrackedUnit;
use crate::tracked_verdict::TrackedVerdict;
use engine::{Completion, RunAnswer, Verdict, tell_completions};
use ring::{Consumer, Outcome, PendingRun, Ring, TakenRun, growth_adds_up};
use ringcore::MOST_RESERVED;

/// What a step of a run of commands did.
#[derive(Clone, Copy, Debug, PartialEq, Eq)]
pub enum TrackedRun {
    /// What such a step of a unit does, but that a run also ends ahead of a CMD_SYNC that waits.
    Ran(RunAnswer),
    /// A legal CMD_SYNC comes first that has to wait for so many transactions. It stays in the
    /// ring.
    Waiting { transactions: u32 },
}

/// Takes at most `most` commands of a ring, 1 to 64, with a tracked unit and its consumer: of those
/// ready from the head on it applies all before the first that is illegal or a CMD_SYNC that has to
/// wait, and completes them together. If that one comes first, it does with it as `step_with`.
///
/// If there is room for `most` completions, it writes there what they complete, and returns how
/// much that is.
pub fn step_run_with(
    consumer: Consumer<TrackedUnit>,
    tracked: &mut TrackedUnit,
    ring: &Ring,
    most: u32,
    completions: &mut [Completion],
) -> (Consumer<TrackedUnit>, TrackedRun, usize)
    requires ring { consumer.ring ≡ ring.now }
    requires together { AreTracked consumer tracked.old }
    requires some { 1 ≤ most }
    requires most { most ≤ 64 }
    ensures stepped { HasRun most result.1 consumer tracked.old result.0 tracked.new }
    ensures told { most ≤ length completions.old → HasTold most (result.1, result.2)
        completions.old completions.new consumer tracked.old result.0 tracked.new }
    ensures together { AreTracked result.0 tracked.new }
    ensures history { HasGrown consumer result.0 }
    ensures still { (result.1 ≡ TrackedRun.Ran RunAnswer.StillStopped)
        ↔ IsStopped tracked.old.unit.stop.mode }
    ensures exhausted { (result.1 ≡ TrackedRun.Ran RunAnswer.Exhausted)
        ↔ IsExhausted tracked.old.unit }
    ensures ring { result.0.ring ≡ consumer.ring }
{
    if tracked.unit().stopped() {
        return (consumer, TrackedRun::Ran(RunAnswer::StillStopped), 0);
    }
    if tracked.unit().counts().taken() == MOST_RESERVED {
        return (consumer, TrackedRun::Ran(RunAnswer::Exhausted), 0);
    }
    growth_adds_up();
    match consumer.take_run(ring, most) {
        TakenRun::Empty(consumer) => (consumer, TrackedRun::Ran(RunAnswer::Empty), 0),
        TakenRun::Drained(consumer) => (consumer, TrackedRun::Ran(RunAnswer::Drained), 0),
        TakenRun::Unwritten(consumer) => (consumer, TrackedRun::Ran(RunAnswer::Unwritten), 0),
        TakenRun::Ready(run) => {
            let (count, removed) = apply_ready(&run, tracked);
            if count > 0 {
                let many = tell_completions(&run, count, completions);
                let consumer = run.complete_run(ring, count, Outcome::Applied, tracked);
                let answer = RunAnswer::Applied { count, removed };
                return (consumer, TrackedRun::Ran(answer), many);
            }
            match tracked.judge(run.get(0).unwrap()) {
                TrackedVerdict::Judged(Verdict::Applied { .. }) => unreachable!(),
                TrackedVerdict::Judged(Verdict::Replaced(ill)) => (
                    run.complete_run(ring, 1, Outcome::Replaced, tracked),
                    TrackedRun::Ran(RunAnswer::Replaced(ill)),
                    0,
                ),
                TrackedVerdict::Judged(Verdict::Stopped(ill)) => {
                    (run.put_back(), TrackedRun::Ran(RunAnswer::Stopped(ill)), 0)
                }
                TrackedVerdict::Waiting { transactions } => {
                    (run.put_back(), TrackedRun::Waiting { transactions }, 0)
                }
            }
        }
    }
}

/// Applies the commands of a run up to the first that is illegal or has to wait. Returns how many
/// there were and how many entries they removed.
fn apply_ready(run: &PendingRun<TrackedUnit>, tracked: &mut TrackedUnit) -> (u32, u32)
    requires running { ¬ IsStopped tracked.old.unit.stop.mode }
    requires next { (raw : RawOf) → slice_get run.now.raws 0 ≡ Some raw
        → MayComeNext raw tracked.old.unit.stop }
    requires counted { taken tracked.old.unit.counts ≡ length (taken_of run.now.consumer.trail) }
    ensures within { result.0 ≤ length run.now.raws }
    ensures applied { AreAppliedTracked (take result.0 run.now.raws) result.1
        tracked.old tracked.new }
    ensures longest { (raw : RawOf) → slice_get run.now.raws result.0 ≡ Some raw
        → EndsRun tracked.new raw }
    ensures tracked { StaysTracked tracked.old tracked.new
        (map (with_outcome AsApplied) (take result.0 run.now.raws)) }
{
    let mut removed = 0;
    for count in 0..run.len() {
        let Some(more) = tracked.apply(run.get(count).unwrap()) else {
            return (count, removed);
        };
        removed += more;
    }
    (run.len(), removed)
}
