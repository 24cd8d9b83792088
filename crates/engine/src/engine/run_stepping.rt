//! A step of a run of commands.
ghost use Rattle.std.specs.Prelude.{◌≡◌, ◌≤◌, ◌↔◌, length, take, slice_get, Some};
ghost use Rattle.cmdcodec.specs.declared.raw.Raw.{Raw as RawOf};
ghost use Rattle.ring.specs.consumer.Completing.{taken_of};
ghost use Rattle.engine.specs.Stops.{IsStopped, MayComeNext};
ghost use Rattle.engine.specs.Counting.{taken};
ghost use Rattle.engine.specs.Units.{AreApplied, OnlyRemoves};
ghost use Rattle.engine.specs.Engines.{AreTogether, HasGrown, HasRun, IsExhausted, IsIllegal, engine};
ghost use Rattle.engine.specs.Completions.{HasTold};

use crate::answer::RunAnswer;
use crate::completion::{Completion, tell_completions};
use crate::unit::Unit;
use crate::verdict::Verdict;
use ring::{Consumer, Outcome, PendingRun, Ring, TakenRun, growth_adds_up};
use ringcore::MOST_RESERVED;

/// Takes at most `most` commands, 1 to 64, with a unit and its consumer. If there is room for `most`, it tells what
/// they complete and returns how much that is.
///
/// Inlined into both calls of the engine, so that neither pays for the other in time and stack.
#[inline(always)]
pub(crate) fn step_run_with(
    consumer: Consumer<Unit>,
    unit: &mut Unit,
    ring: &Ring,
    most: u32,
    completions: &mut [Completion],
) -> (Consumer<Unit>, RunAnswer, usize)
    requires ring { consumer.ring ≡ ring.now }
    requires together { AreTogether consumer unit.old }
    requires some { 1 ≤ most }
    requires most { most ≤ 64 }
    ensures stepped { HasRun most (engine consumer unit.old) (engine result.0 unit.new) result.1 }
    ensures told { most ≤ length completions.old
        → HasTold most (engine consumer unit.old) (engine result.0 unit.new)
        (result.1, result.2) completions.old completions.new }
    ensures history { HasGrown (engine consumer unit.old) (engine result.0 unit.new) }
    ensures still { (result.1 ≡ RunAnswer.StillStopped) ↔ IsStopped unit.old.stop.mode }
    ensures exhausted { (result.1 ≡ RunAnswer.Exhausted) ↔ IsExhausted unit.old }
    ensures together { AreTogether result.0 unit.new }
    ensures removes { OnlyRemoves unit.old unit.new }
    ensures ring { result.0.ring ≡ consumer.ring }
{
    if unit.stopped() {
        return (consumer, RunAnswer::StillStopped, 0);
    }
    if unit.counts().taken() == MOST_RESERVED {
        return (consumer, RunAnswer::Exhausted, 0);
    }
    growth_adds_up();
    match consumer.take_run(ring, most) {
        TakenRun::Empty(consumer) => (consumer, RunAnswer::Empty, 0),
        TakenRun::Drained(consumer) => (consumer, RunAnswer::Drained, 0),
        TakenRun::Unwritten(consumer) => (consumer, RunAnswer::Unwritten, 0),
        TakenRun::Ready(run) => {
            let (count, removed) = apply_legal(&run, unit);
            if count > 0 {
                let many = tell_completions(&run, count, completions);
                let consumer = run.complete_run(ring, count, Outcome::Applied, unit);
                return (consumer, RunAnswer::Applied { count, removed }, many);
            }
            match unit.judge(run.get(0).unwrap()) {
                Verdict::Applied { .. } => unreachable!(),
                Verdict::Replaced(ill) => (
                    run.complete_run(ring, 1, Outcome::Replaced, unit),
                    RunAnswer::Replaced(ill),
                    0,
                ),
                Verdict::Stopped(ill) => (run.put_back(), RunAnswer::Stopped(ill), 0),
            }
        }
    }
}

/// Applies the commands of a run up to the first illegal one. Returns how many there were and how many
/// entries they removed.
fn apply_legal(run: &PendingRun<Unit>, unit: &mut Unit) -> (u32, u32)
    requires running { ¬ IsStopped unit.old.stop.mode }
    requires next { (raw : RawOf) → slice_get run.now.raws 0 ≡ Some raw
        → MayComeNext raw unit.old.stop }
    requires counted { taken unit.old.counts ≡ length (taken_of run.now.consumer.trail) }
    ensures within { result.0 ≤ length run.now.raws }
    ensures applied { AreApplied (take result.0 run.now.raws) result.1 unit.old unit.new }
    ensures longest { (raw : RawOf) → slice_get run.now.raws result.0 ≡ Some raw → IsIllegal raw }
{
    let mut removed = 0;
    for count in 0..run.len() {
        let Some(more) = unit.apply_words(run.get(count).unwrap()) else {
            return (count, removed);
        };
        removed += more;
    }
    (run.len(), removed)
}
