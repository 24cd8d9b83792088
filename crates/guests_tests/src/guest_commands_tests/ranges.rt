//! TLB invalidations of ranges.
use crate::guest_commands_tests::expecting::{ALL, expect_one, full, guest};
use smmu_features::Smmu;

#[test]
fn ranges(rt: HostRuntime) {
    let guest = guest(&rt, full());
    let rows = [
        // CMD_TLBI_NH_VA, TG 1, TTL 3, NUM 3, SCALE 2
        (
            (0x0005_0007_0020_3012, 0x1234_5701),
            (0x0005_0021_0020_3012, 0x1234_5701),
        ),
        // CMD_TLBI_NH_VAA with every bit that has no name
        (
            (0xffff_0007_fe2e_3f13, 0x1234_57ff),
            (0x0000_0021_0020_3013, 0x1234_5701),
        ),
        // one granule with TTL
        (
            (0x0005_0007_0000_0012, 0x1234_5701),
            (0x0005_0021_0000_0012, 0x1234_5701),
        ),
    ];
    expect_one(&rt, &guest, &rows);
}

/// NUM, SCALE and TTL that are all 0 are reserved beside a TG.
#[test]
fn one_granule_without_a_hint(rt: HostRuntime) {
    let guest = guest(&rt, full());
    let rows = [
        // 4 KiB: the page
        (
            (0x0005_0007_0000_0012, 0x1234_5401),
            (0x0005_0021_0000_0012, 0x1234_5001),
        ),
        // 16 KiB: two granules
        (
            (0x0005_0007_0000_0012, 0x1234_5801),
            (0x0005_0021_0010_0012, 0x1234_5801),
        ),
        // 16 KiB with TTL 1, which is reserved
        (
            (0x0005_0007_0000_0012, 0x1234_5901),
            (0x0005_0021_0010_0012, 0x1234_5801),
        ),
    ];
    expect_one(&rt, &guest, &rows);
}

#[test]
fn level_1(rt: HostRuntime) {
    let guest = guest(&rt, full());
    let rows = [
        // four granules of 16 KiB: without TTL
        (
            (0x0005_0007_0000_3012, 0x1234_5901),
            (0x0005_0021_0000_3012, 0x1234_5801),
        ),
        // of 64 KiB: with it
        (
            (0x0005_0007_0000_3012, 0x1234_5d01),
            (0x0005_0021_0000_3012, 0x1234_5d01),
        ),
    ];
    expect_one(&rt, &guest, &rows);
}

#[test]
fn a_host_without_ranges(rt: HostRuntime) {
    let guest = guest(&rt, Smmu::from_registers(0x4_1403, 0x210, 0, 0x70));
    let rows = [
        // one granule of 4 KiB
        (
            (0x0005_0007_0000_0012, 0x1234_5701),
            (0x0005_0021_0000_0012, 0x1234_5001),
        ),
        // 16, and one of 16 KiB
        ((0x0005_0007_0020_3012, 0x1234_5701), ALL),
        ((0x0000_0007_0000_0013, 0x1234_5b01), ALL),
    ];
    expect_one(&rt, &guest, &rows);
}

#[test]
fn a_host_without_16_kib_granules(rt: HostRuntime) {
    let guest = guest(&rt, Smmu::from_registers(0x4_1403, 0x210, 0x400, 0x50));
    let rows = [
        ((0x0005_0007_0000_3012, 0x1234_5b01), ALL),
        (
            (0x0005_0007_0000_3012, 0x1234_5701),
            (0x0005_0021_0000_3012, 0x1234_5701),
        ),
    ];
    expect_one(&rt, &guest, &rows);
}
