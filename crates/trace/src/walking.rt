//! Walks that a log told of.
ghost use Rattle.std.specs.Prelude.{◌≡◌};
ghost use Rattle.trace.specs.Traces.{walk_of};

use transactions::Walk;

/// A walk, and its number in the log.
#[derive(Clone, Copy, Debug, PartialEq, Eq)]
pub(crate) struct OpenWalk {
    pub number: u64,
    pub walk: Walk,
}

/// Returns the newest walk of this number, the newest being first.
pub(crate) fn walk_of(number: u64, walks: &[OpenWalk]) -> Option<Walk>
    ensures { result ≡ walk_of number walks.now }
{
    for open in walks {
        if open.number == number {
            return Some(open.walk);
        }
    }
    None
}
