//! What was gathered to be invalidated.
ghost use Rattle.std.specs.Prelude.{◌≡◌, ◌<◌, ◌≤◌, ◌*◌, [], None, Some, OnOk, OnErr, IfErr, true, false};
ghost use Rattle.std.specs.Result.{OkIff};
ghost use Rattle.invalidations.specs.declared.fault.InvalidationFault.TheVariants.{PastEnd};
ghost use Rattle.invalidations.specs.Plans.{goes_past};
ghost use Rattle.invalidations.specs.Spaces.{size_of};
ghost use Rattle.invalidations.specs.Intervals.{IsBefore};
ghost use Rattle.invalidations.specs.declared.invalidation.Bytes.TheVariants.{Range};
ghost use Rattle.invalidations.specs.Gathering.{nothing_for, interval_of, IsAdded, IsIntervalAdded, IsNextBytes, IsNextTaken};

use crate::entries::Entries;
use crate::fault::InvalidationFault;
use crate::interval::{Interval, Intervals, join};
use crate::invalidation::{ByteRange, Bytes, Invalidation};
use crate::rounding::PAGE_BYTES;
use crate::space::Space;
use cmdcodec::Granule;
use std::marker::Model;

/// The bytes of one address space that are gathered until they are invalidated. Neighbours are joined; where more than
/// 16 intervals would be left, the whole space is invalidated (own).
#[derive(Debug, Drop)]
pub struct Gather {
    space: Space,
    granule: Granule,
    entries: Entries,
    intervals: Intervals,
    everything: bool,
}

impl Model for Gather {
    ghost use Rattle.invalidations.specs.Gathering.{Gathered, IsGathered};

    ghost Value = { Gathered };

    ghost view = { λ gather. record { space = gather.space; granule = gather.granule; entries = gather.entries; intervals = gather.intervals.items; everything = gather.everything } };

    ghost invariant = { λ gather. IsGathered (record { space = gather.space; granule = gather.granule; entries = gather.entries; intervals = gather.intervals.items; everything = gather.everything }) };
}

impl Gather {
    /// Gathers nothing yet.
    pub fn new(space: Space, granule: Granule, entries: Entries) -> Gather
        ensures { result ≡ nothing_for space granule entries }
    {
        Gather {
            space,
            granule,
            entries,
            intervals: Intervals::new(),
            everything: false,
        }
    }

    /// Adds bytes of the space. It refuses those that go past its end, and is then as it was.
    pub fn add(&mut self, bytes: &Bytes) -> Result<(), InvalidationFault>
        ensures made { OkIff result (goes_past self.old.space bytes.now ≡ false) tt }
        ensures added { OnOk result (IsAdded self.old bytes.now self.new) }
        ensures refused { OnErr result (self.new ≡ self.old) }
        ensures fault { IfErr result (λ fault. fault ≡ PastEnd) }
    {
        match *bytes {
            Bytes::Everything => self.everything = true,
            Bytes::Range(range) => {
                if range.length > 0 {
                    let interval = self.interval(range)?;
                    self.add_interval(interval);
                }
            }
        }
        Ok(())
    }

    /// Takes the next invalidation out, or `None` if nothing is gathered.
    pub fn take(&mut self) -> Option<Invalidation>
        ensures { IsNextTaken self.old result self.new }
    {
        let bytes = self.take_bytes()?;
        Some(Invalidation {
            space: self.space,
            bytes,
            granule: self.granule,
            entries: self.entries,
        })
    }

    /// The interval of some bytes.
    fn interval(&self, range: ByteRange) -> Result<Interval, InvalidationFault>
        requires { 0 < range.length }
        ensures made { OkIff result (goes_past self.now.space (Range range)
            ≡ false) (interval_of range) }
        ensures fault { IfErr result (λ fault. fault ≡ PastEnd) }
    {
        match range.first.checked_add(range.length - 1) {
            Some(last) if last / PAGE_BYTES < self.space.size() => Ok(Interval {
                first: range.first,
                last,
            }),
            _ => Err(InvalidationFault::PastEnd),
        }
    }

    fn add_interval(&mut self, interval: Interval)
        requires { IsBefore (size_of self.old.space * 4096) interval }
        ensures { IsIntervalAdded self.old interval self.new }
    {
        let (mut apart, joined) = join(self.intervals.as_slice(), interval);
        if apart.is_full() {
            self.everything = true;
        } else {
            apart.push(joined);
            self.intervals = apart;
        }
    }

    fn take_bytes(&mut self) -> Option<Bytes>
        ensures { IsNextBytes self.old result self.new }
    {
        if self.everything {
            self.everything = false;
            self.intervals.clear();
            return Some(Bytes::Everything);
        }
        let interval = self.intervals.pop()?;
        Some(interval.bytes())
    }
}
