//! The caller that smmu_features' README shows.
use cmdcodec::{Ill, Raw};
use smmu_features::Smmu;

#[test]
fn a_guest_of_an_emulated_smmu(rt: HostRuntime) {
    // SMMU_IDR0 with S1P, ASID16 and VMID16; SMMU_IDR5 with all three granules.
    let smmu = Smmu::from_registers(0x4_1002, 0, 0, 0x70);
    let stage_1 = Raw { lo: 0x10, hi: 0 };
    let stage_2 = Raw { lo: 0x28, hi: 0 };
    assert_eq!(rt; smmu.judge(stage_1), None);
    assert_eq!(rt; smmu.judge(stage_2), Some(Ill::UnknownOpcode));
}
