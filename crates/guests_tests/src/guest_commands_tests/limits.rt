//! Hosts that lack other things.
use crate::guest_commands_tests::expecting::{ALL, expect_nothing, expect_one, full, guest};
use cmdcodec::Vmid;
use guest_commands::Guest;
use smmu_features::Smmu;

#[test]
fn asids_of_8_bits(rt: HostRuntime) {
    let smmu = Smmu {
        wide_asids: false,
        ..full()
    };
    let guest = guest(&rt, smmu);
    let rows = [
        ((0x00ff_0007_0000_0011, 0), (0x00ff_0021_0000_0011, 0)),
        ((0x0100_0007_0000_0011, 0), ALL),
        // CMD_TLBI_NH_VA becomes a CMD_TLBI_NH_VAA.
        (
            (0x0100_0007_0020_3012, 0x1234_5701),
            (0x0000_0021_0020_3013, 0x1234_5701),
        ),
    ];
    expect_one(&rt, &guest, &rows);
}

#[test]
fn vmids_of_8_bits(rt: HostRuntime) {
    let smmu = Smmu {
        wide_vmids: false,
        ..full()
    };
    let last = Vmid::new(0xff).expect(&rt, "16 bits");
    let next = Vmid::new(0x100).expect(&rt, "16 bits");
    assert!(rt; Guest::new(rt.alloc(), last, smmu).is_some());
    assert!(rt; Guest::new(rt.alloc(), next, smmu).is_none());
    assert!(rt; Guest::new(rt.alloc(), next, full()).is_some());
}

#[test]
fn no_stage_1(rt: HostRuntime) {
    let smmu = Smmu {
        stage_1: false,
        ..full()
    };
    let rows = [
        (0x30, 0),
        (0x10, 0),
        (0x11, 0),
        (0x12, 0),
        (0x13, 0),
        (0x0000_0003_0000_0005, 0),
        (0x0000_0003_0000_0006, 0),
    ];
    expect_nothing(&rt, &guest(&rt, smmu), &rows);
}

#[test]
fn no_ats(rt: HostRuntime) {
    let smmu = Smmu {
        ats: false,
        ..full()
    };
    expect_nothing(&rt, &guest(&rt, smmu), &[(0x0000_0003_0000_0040, 52)]);
}

#[test]
fn no_substreams(rt: HostRuntime) {
    let smmu = Smmu {
        substream_bits: 0,
        ..full()
    };
    let guest = guest(&rt, smmu);
    // CMD_CFGI_CD of substream 1; CMD_ATC_INV with SSV 1, Global 0 and 1
    let rows = [
        (0x0000_0003_0000_1005, 0),
        (0x0000_0003_0000_0840, 52),
        (0x0000_0003_0000_0a40, 52),
    ];
    expect_nothing(&rt, &guest, &rows);
    let rows = [
        ((0x0000_0003_0000_0005, 0), (0x0000_0103_0000_0005, 0)),
        ((0x0000_0003_0000_0040, 52), (0x0000_0103_0000_0040, 52)),
    ];
    expect_one(&rt, &guest, &rows);
}
