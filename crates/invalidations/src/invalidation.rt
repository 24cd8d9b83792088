//! An invalidation as a driver means it.
ghost use Rattle.std.specs.Prelude.{◌≡◌, IfSome, true};
ghost use Rattle.invalidations.specs.Spaces.{whole_command};
ghost use Rattle.invalidations.specs.Plans.{has_granule, is_supported, target_of, stage_1_behind};
ghost use Rattle.invalidations.specs.Reaching.{is_served};

use crate::entries::Entries;
use crate::request::Target;
use crate::space::Space;
use cmdcodec::Granule;
use smmu_features::Smmu;

/// `length` bytes from address `first` on.
#[derive(Clone, Copy, Debug, PartialEq, Eq)]
pub struct ByteRange {
    pub first: u64,
    pub length: u64,
}

/// Which bytes of an address space.
#[derive(Clone, Copy, Debug, PartialEq, Eq)]
pub enum Bytes {
    /// All of them.
    Everything,
    /// Some, at any alignment.
    Range(ByteRange),
}

/// An invalidation as a driver means it.
#[derive(Clone, Copy, Debug, PartialEq, Eq)]
pub struct Invalidation {
    pub space: Space,
    /// The bytes whose translations changed.
    pub bytes: Bytes,
    /// The granule of the translation tables.
    pub granule: Granule,
    /// Which entries of the tables changed.
    pub entries: Entries,
}

impl Invalidation {
    /// Returns what is still to be invalidated where a stage 1 goes through the changed stage 2: all of stage 1 of its
    /// VMID, or `None` for another space and for an SMMU without stage 1. Its command, `Space::whole`, has to be sent only
    /// once the CMD_SYNC behind the commands of this invalidation is complete: an SMMU may carry the commands ahead of a
    /// CMD_SYNC out in any order, and make a translation of stage 1 again by the old stage 2.
    pub fn stage_1_behind(&self, smmu: &Smmu) -> Option<Space>
        ensures exact { result ≡ stage_1_behind self.now.space smmu.now }
        ensures served { IfSome result (λ space. is_served smmu.now (whole_command space) ≡ true) }
    {
        match self.space {
            Space::Stage2 { vmid } if smmu.stage_1 => Some(Space::Stage1 { vmid, asid: None }),
            _ => None,
        }
    }

    /// Whether the SMMU has the stage and the granule.
    pub(crate) fn is_supported(&self, smmu: &Smmu) -> bool
        ensures { result ≡ is_supported self.now smmu.now }
    {
        self.space.is_of(smmu) && is_granule_of(self.granule, smmu)
    }

    /// What is invalidated, as this SMMU is told it.
    pub(crate) fn target(&self, smmu: &Smmu) -> Target
        ensures { result ≡ target_of self.now smmu.now }
    {
        Target {
            space: self.space,
            granule: self.granule,
            entries: self.entries.known(self.granule),
            ranged: smmu.range_invalidation,
        }
    }
}

fn is_granule_of(granule: Granule, smmu: &Smmu) -> bool
    ensures { result ≡ has_granule smmu.now granule }
{
    match granule {
        Granule::Kib4 => smmu.granules.kib4,
        Granule::Kib16 => smmu.granules.kib16,
        Granule::Kib64 => smmu.granules.kib64,
    }
}
