//! A law of the definitions, the contract of a function that does nothing.
ghost use Rattle.batch.specs.Laws.{RangesAreReachedExactly};

/// The commands for a run of pages reach these pages and no others, each once, in ascending order.
#[tactic(auto, using(crate::proofs::LawLemmas::reached_exactly))]
pub fn ranges_are_reached_exactly()
    ensures { RangesAreReachedExactly }
{}
