//! What is refused.
use crate::expecting::{PAGES, POLICY, range, smmu, stage1, stage2};
use cmdcodec::Granule;
use invalidations::{Commands, InvalidationFault};
use smmu_features::Smmu;

#[test]
fn what_an_smmu_lacks(rt: HostRuntime) {
    let invalidation = range(stage2(&rt), Granule::Kib16, PAGES, 0, 0x4000);
    let unsupported = Some(InvalidationFault::Unsupported);
    // No S2P, and no GRAN16K.
    let without_stage_2 = Smmu::from_registers(0x602, 0, 0x400, 0x70);
    assert!(rt; Commands::new(&invalidation, &without_stage_2, &POLICY).err() == unsupported);
    let without_granule = Smmu::from_registers(0x603, 0, 0x400, 0x50);
    assert!(rt; Commands::new(&invalidation, &without_granule, &POLICY).err() == unsupported);
    assert!(rt; Commands::new(&invalidation, &smmu(), &POLICY).is_ok());
}

#[test]
fn bytes_past_the_end(rt: HostRuntime) {
    let past = Some(InvalidationFault::PastEnd);
    let end = range(stage1(&rt), Granule::Kib4, PAGES, u64::MAX, 2);
    assert!(rt; Commands::new(&end, &smmu(), &POLICY).err() == past);
    let ipa = range(stage2(&rt), Granule::Kib4, PAGES, (1 << 52) - 1, 2);
    assert!(rt; Commands::new(&ipa, &smmu(), &POLICY).err() == past);
    let last = range(stage2(&rt), Granule::Kib4, PAGES, (1 << 52) - 1, 1);
    assert!(rt; Commands::new(&last, &smmu(), &POLICY).is_ok());
}
