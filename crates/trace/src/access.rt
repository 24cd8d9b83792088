//! Accesses that aren't over.
ghost use Rattle.std.specs.Prelude.{MatchOption};
ghost use Rattle.trace.specs.Traces.{IsOpen, IsPlaceOf};

use transactions::Transaction;

/// An access that isn't over: its number in the log, and its token.
pub(crate) struct OpenAccess {
    pub number: u64,
    pub transaction: Transaction,
}

/// Returns the place of the access of this number, if it isn't over.
pub(crate) fn place_of(number: u64, accesses: &[OpenAccess]) -> Option<usize>
    ensures { MatchOption result (¬ IsOpen number accesses.now)
        (λ place. IsPlaceOf number accesses.now place) }
{
    for (place, access) in accesses.iter().enumerate() {
        if access.number == number {
            return Some(place);
        }
    }
    None
}
