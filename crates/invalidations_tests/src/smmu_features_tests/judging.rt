//! Commands that are illegal for what an SMMU lacks.
use crate::smmu_features_tests::model::emulated;
use cmdcodec::{Ill, Opcode, Raw, Ssid};
use smmu_features::Smmu;
use std::process::Abort;

/// An SMMU with all of it.
fn full() -> Smmu {
    Smmu {
        stage_2: true,
        ats: true,
        pri: true,
        hypervisor: true,
        stalls: true,
        ..emulated()
    }
}

/// Expects the SMMU to call commands of these opcodes illegal, and one with everything not to.
fn expect_missing(rt: &impl Abort, smmu: &Smmu, opcodes: &[u64]) {
    for lo in opcodes {
        let raw = Raw { lo: *lo, hi: 0 };
        assert_eq!(rt; smmu.judge(raw), Some(Ill::UnknownOpcode));
        assert_eq!(rt; full().judge(raw), None);
    }
}

#[test]
fn without_a_stage(rt: HostRuntime) {
    let smmu = Smmu {
        stage_1: false,
        ..full()
    };
    expect_missing(&rt, &smmu, &[0x05, 0x06, 0x10, 0x11, 0x12, 0x13]);
    // CMD_TLBI_S12_VMALL is for stage 2.
    assert_eq!(rt; smmu.judge(Raw { lo: 0x28, hi: 0 }), None);
    let smmu = Smmu {
        stage_2: false,
        ..full()
    };
    expect_missing(&rt, &smmu, &[0x28, 0x2a]);
}

#[test]
fn without_a_hypervisor_or_endpoints(rt: HostRuntime) {
    expect_missing(
        &rt,
        &emulated(),
        &[0x20, 0x21, 0x22, 0x23, 0x28, 0x2a, 0x40, 0x41, 0x44, 0x45],
    );
    let smmu = Smmu {
        pri: false,
        ..full()
    };
    expect_missing(&rt, &smmu, &[0x41]);
    assert_eq!(rt; smmu.judge(Raw { lo: 0x40, hi: 0 }), None);
}

#[test]
fn always_there(rt: HostRuntime) {
    let smmu = Smmu::from_registers(0, 0, 0, 0);
    for lo in [0x01, 0x02, 0x03, 0x04, 0x30, 0x44, 0x45, 0x46] {
        assert_eq!(rt; smmu.judge(Raw { lo, hi: 0 }), None);
    }
    assert!(rt; smmu.has_command(Opcode::CmdSync));
    assert!(rt; !smmu.has_command(Opcode::AtcInv));
}

/// SubstreamIDs have 8 bits.
#[test]
fn substreams(rt: HostRuntime) {
    let without = Smmu {
        substream_bits: 0,
        ..full()
    };
    // With SSV 1 substream 255 or 256; CMD_ATC_INV with Global 1, whose SubstreamID means nothing.
    for lo in [0xf_f801, 0xf_f802, 0xf_f840, 0x10_0a40] {
        let raw = Raw { lo, hi: 0 };
        assert_eq!(rt; full().judge(raw), None);
        assert_eq!(rt; without.judge(raw), Some(Ill::UnknownOpcode));
    }
    for lo in [0x10_0801, 0x10_0802, 0x10_0840, 0x10_0a01] {
        let raw = Raw { lo, hi: 0 };
        assert_eq!(rt; full().judge(raw), Some(Ill::UnknownOpcode));
    }
    // With SSV 0 it means nothing.
    assert_eq!(rt;
        without.judge(Raw {
            lo: 0x10_0040,
            hi: 0
        }),
        None
    );
    let zero = Ssid::new(0).expect(&rt, "20 bits");
    assert!(rt; full().has_accesses(true, zero, false) && !without.has_accesses(true, zero, true));
}

#[test]
fn illegal_for_any(rt: HostRuntime) {
    // An unknown opcode, a Secure stream, CS 3 and Size 53.
    let judged = |lo, hi| full().judge(Raw { lo, hi });
    assert_eq!(rt; judged(0x7f, 0), Some(Ill::UnknownOpcode));
    assert_eq!(rt; judged(0x403, 0), Some(Ill::SecureStream));
    assert_eq!(rt; judged(0x444, 0), Some(Ill::SecureStream));
    assert_eq!(rt; judged(0x445, 0), Some(Ill::SecureStream));
    assert_eq!(rt; judged(0x3046, 0), Some(Ill::ReservedSignal));
    assert_eq!(rt; judged(0x40, 53), Some(Ill::OversizedSpan));
    // An ATC_INV is unknown first, and then of a Secure stream.
    let smmu = Smmu {
        ats: false,
        ..full()
    };
    assert_eq!(rt;
        smmu.judge(Raw { lo: 0x440, hi: 0 }),
        Some(Ill::UnknownOpcode)
    );
}
