//! Granules of an address space.
ghost use Rattle.std.specs.Prelude.{◌≡◌, ◌≤◌};
ghost use Rattle.invalidations.specs.Targets.{level_bits, leaf_bits};

use crate::entries::{Entries, Level};
use crate::space::Space;
use cmdcodec::Granule;

/// What is invalidated, as an SMMU is told it.
#[derive(Clone, Copy, Debug, PartialEq, Eq)]
pub struct Target {
    pub space: Space,
    /// The granule of the translation tables.
    pub granule: Granule,
    pub entries: Entries,
    /// Whether the SMMU knows invalidation by ranges (SMMU_IDR3.RIL).
    pub ranged: bool,
}

/// The granules from number `first` on.
#[derive(Clone, Copy, Debug, PartialEq, Eq)]
pub struct GranuleRange {
    pub first: u64,
    pub count: u64,
}

/// The granules that commands by address are for.
#[derive(Clone, Copy, Debug, PartialEq, Eq)]
pub struct Request {
    pub target: Target,
    pub range: GranuleRange,
}

impl Target {
    /// How many granules a leaf has, as a power of 2, or a granule where the level of the leaves isn't known.
    pub(crate) fn leaf_bits(&self) -> u32
        ensures value { result ≡ leaf_bits self.now.granule self.now.entries }
        ensures in_range { result ≤ 26 }
    {
        match self.entries {
            Entries::Leaves { level: Some(level) } => level_bits(self.granule, level),
            _ => 0,
        }
    }
}

/// How many granules a leaf of this level has, as a power of 2. Level 1 of 16 KiB granules has no leaves.
fn level_bits(granule: Granule, level: Level) -> u32
    ensures value { result ≡ level_bits granule level }
    ensures in_range { result ≤ 26 }
{
    match (level, granule) {
        (Level::Three, _) => 0,
        (Level::Two, Granule::Kib4) => 9,
        (Level::Two, Granule::Kib16) => 11,
        (Level::Two, Granule::Kib64) => 13,
        (Level::One, Granule::Kib4) => 18,
        (Level::One, Granule::Kib16) => 0,
        (Level::One, Granule::Kib64) => 26,
    }
}
