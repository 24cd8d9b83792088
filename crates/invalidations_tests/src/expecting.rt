//! What the tests share.
use cmdcodec::{Asid, Granule, Raw, Vmid, encode};
use invalidations::{
    Body, ByteRange, Bytes, Commands, Entries, Invalidation, Level, Policy, Space,
};
use smmu_features::Smmu;
use std::process::Abort;

/// Leaves of level 3.
pub const PAGES: Entries = Entries::Leaves {
    level: Some(Level::Three),
};

/// Leaves of level 2.
pub const BLOCKS: Entries = Entries::Leaves {
    level: Some(Level::Two),
};

/// As Linux: 512 commands, and no page is global.
pub const POLICY: Policy = Policy {
    most_commands: 512,
    global_pages: false,
};

/// An SMMU with all that is asked of it: SMMU_IDR0 has S2P, S1P, Hyp and ATS, SMMU_IDR1 SubstreamIDs of 20 bits, and
/// SMMU_IDR5 all granules.
pub fn smmu() -> Smmu {
    Smmu::from_registers(0x603, 0x500, 0x400, 0x70)
}

/// The same, without ranges.
pub fn smmu_without_ranges() -> Smmu {
    Smmu::from_registers(0x603, 0, 0, 0x70)
}

/// Stage 1 of virtual machine 1, address space 2.
pub fn stage1<R: AllocGlobal + Abort>(rt: &R) -> Space {
    Space::Stage1 {
        vmid: Vmid::new(1).expect(rt, "16 bits"),
        asid: Some(Asid::new(2).expect(rt, "16 bits")),
    }
}

/// Stage 2 of virtual machine 1.
pub fn stage2<R: AllocGlobal + Abort>(rt: &R) -> Space {
    Space::Stage2 {
        vmid: Vmid::new(1).expect(rt, "16 bits"),
    }
}

/// Address space 2 of the hypervisor.
pub fn hypervisor<R: AllocGlobal + Abort>(rt: &R) -> Space {
    Space::Hypervisor {
        asid: Some(Asid::new(2).expect(rt, "16 bits")),
    }
}

/// Some bytes.
pub fn range(
    space: Space,
    granule: Granule,
    entries: Entries,
    first: u64,
    length: u64,
) -> Invalidation {
    Invalidation {
        space,
        bytes: Bytes::Range(ByteRange { first, length }),
        granule,
        entries,
    }
}

/// That just these words are sent.
pub fn expect<R: AllocGlobal + Abort>(
    rt: &R,
    invalidation: &Invalidation,
    smmu: &Smmu,
    policy: &Policy,
    wanted: &[Raw],
) {
    let mut commands = Commands::new(invalidation, smmu, policy)
        .ok()
        .expect(rt, "accepted");
    let mut body = Body::new();
    commands.fill(&mut body);
    assert!(rt; body.as_slice() == wanted);
}

/// The words of what is sent behind the CMD_SYNC of an invalidation.
pub fn words_behind(invalidation: &Invalidation, smmu: &Smmu) -> Option<Raw> {
    match invalidation.stage_1_behind(smmu) {
        Some(space) => Some(encode(&space.whole())),
        None => None,
    }
}
