//! What ID registers say.
use crate::smmu_features_tests::model::emulated;
use smmu_features::{Granules, Smmu};

#[test]
fn an_emulated_smmu(rt: HostRuntime) {
    let expected = Smmu {
        range_invalidation: true,
        stage_1: true,
        stage_2: false,
        ats: false,
        pri: false,
        hypervisor: false,
        stalls: false,
        wide_asids: true,
        wide_vmids: true,
        substream_bits: 8,
        stream_bits: 16,
        granules: Granules {
            kib4: true,
            kib16: true,
            kib64: true,
        },
    };
    assert_eq!(rt; emulated(), expected);
}

#[test]
fn a_field_alone(rt: HostRuntime) {
    let none = Smmu::from_registers(0, 0, 0, 0);
    let pri = Smmu::from_registers(0x1_0000, 0, 0, 0);
    assert_eq!(rt; pri, Smmu { pri: true, ..none });
    // STALL_MODEL: 0 is stalls and faults that end a transaction, 1 these alone, 2 stalls alone.
    assert!(rt; none.stalls);
    assert!(rt; !Smmu::from_registers(0x100_0000, 0, 0, 0).stalls);
    assert!(rt; Smmu::from_registers(0x200_0000, 0, 0, 0).stalls);
    let hypervisor = Smmu::from_registers(0x200, 0, 0, 0);
    assert_eq!(rt;
        hypervisor,
        Smmu {
            hypervisor: true,
            ..none
        }
    );
}
