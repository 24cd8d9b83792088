//! What the tests share.
use cmdcodec::{Granule, Vmid};
use invalidations::{ByteRange, Bytes, Entries, Invalidation, Level, Policy, Space};
use smmu_features::Smmu;

/// As Linux: 512 commands, and no page is global.
pub const POLICY: Policy = Policy {
    most_commands: 512,
    global_pages: false,
};

/// The page at 0x10_0000.
pub const CHANGED: Bytes = Bytes::Range(ByteRange {
    first: 0x10_0000,
    length: 0x1000,
});

/// An SMMU with stage 1 and ATS.
pub fn smmu() -> Smmu {
    Smmu::from_registers(0x402, 0x10, 0, 0x10)
}

/// An SMMU with stage 2 alone, and without ATS.
pub fn bare() -> Smmu {
    Smmu::from_registers(0x1, 0x10, 0, 0x10)
}

/// An SMMU with both stages, without ranges.
pub fn nesting() -> Smmu {
    Smmu::from_registers(0x3, 0x10, 0, 0x10)
}

pub fn bytes(first: u64, length: u64) -> Bytes {
    Bytes::Range(ByteRange { first, length })
}

/// Pages of 4 KiB of stage 2.
pub fn stage_2(vmid: Vmid, bytes: Bytes) -> Invalidation {
    Invalidation {
        space: Space::Stage2 { vmid },
        bytes,
        granule: Granule::Kib4,
        entries: Entries::Leaves {
            level: Some(Level::Three),
        },
    }
}
