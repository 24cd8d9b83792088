//! Intervals of bytes, and how they are joined.
ghost use Rattle.std.specs.Prelude.{◌≡◌, ◌<◌, ◌≤◌, length, All, min, max};
ghost use Rattle.invalidations.specs.Intervals.{touches, AreJoined};
ghost use Rattle.invalidations.specs.Gathering.{bytes_of};

use crate::invalidation::{ByteRange, Bytes};
use arrayvec::ArrayVec;

/// The most intervals that are gathered (own).
pub const MOST_INTERVALS: usize = 16;

pub(crate) type Intervals = ArrayVec<Interval, MOST_INTERVALS>;

/// The bytes from `first` to `last`, both of them included.
#[derive(Clone, Copy, Debug, Default, PartialEq, Eq)]
pub struct Interval {
    pub first: u64,
    pub last: u64,
}

impl Interval {
    /// Whether they have a byte in common, or one begins where the other ends.
    fn touches(&self, other: &Interval) -> bool
        ensures { result ≡ touches self.now other.now }
    {
        let begins = self.first == 0 || self.first - 1 <= other.last;
        let ends = other.first == 0 || other.first - 1 <= self.last;
        begins && ends
    }

    /// The bytes of both, which touch.
    fn joined(&self, other: &Interval) -> Interval
        ensures first { result.first ≡ min self.now.first other.now.first }
        ensures last { result.last ≡ max self.now.last other.now.last }
    {
        Interval {
            first: self.first.min(other.first),
            last: self.last.max(other.last),
        }
    }

    /// Its bytes.
    pub(crate) fn bytes(&self) -> Bytes
        requires { self.now.first ≤ self.now.last }
        ensures { result ≡ bytes_of self.now }
    {
        match (self.last - self.first).checked_add(1) {
            None => Bytes::Everything,
            Some(length) => Bytes::Range(ByteRange {
                first: self.first,
                length,
            }),
        }
    }
}

/// Joins an interval with those that touch it, and returns it after the others.
pub(crate) fn join(intervals: &[Interval], interval: Interval) -> (Intervals, Interval)
    requires ordered { interval.first ≤ interval.last }
    requires all_ordered { All (λ held. held.first ≤ held.last) intervals.now }
    requires few { length intervals.now ≤ 16 }
    ensures { AreJoined intervals.now interval result.0.items result.1 }
{
    let (mut apart, mut joined) = (Intervals::new(), interval);
    for held in intervals {
        if joined.touches(held) {
            joined = joined.joined(held);
        } else {
            apart.push(*held);
        }
    }
    (apart, joined)
}
