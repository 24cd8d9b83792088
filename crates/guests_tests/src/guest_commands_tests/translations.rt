//! TLB invalidations, on a host with all that is asked of it.
use crate::guest_commands_tests::expecting::{ALL, expect_one, full, guest};

#[test]
fn whole_spaces(rt: HostRuntime) {
    let guest = guest(&rt, full());
    let rows = [
        // CMD_TLBI_NSNH_ALL
        ((0x30, 0), ALL),
        // CMD_TLBI_NH_ALL with every bit that has no name
        ((0xffff_0007_ffff_ff10, 0xffff_ffff_ffff_ffff), ALL),
        // CMD_TLBI_NH_ASID
        ((0x0005_0007_0000_0011, 0), (0x0005_0021_0000_0011, 0)),
    ];
    expect_one(&rt, &guest, &rows);
}

#[test]
fn pages(rt: HostRuntime) {
    let guest = guest(&rt, full());
    let rows = [
        // CMD_TLBI_NH_VA, Leaf 1
        (
            (0x0005_0007_0000_0012, 0x1234_5001),
            (0x0005_0021_0000_0012, 0x1234_5001),
        ),
        // Leaf 0, and TTL 3, for which a page has no use
        (
            (0x0005_0007_0000_0012, 0x1234_5300),
            (0x0005_0021_0000_0012, 0x1234_5000),
        ),
        // CMD_TLBI_NH_VAA with every bit that has no name
        (
            (0xffff_0007_ffff_ff13, 0x1234_50ff),
            (0x0000_0021_0000_0013, 0x1234_5001),
        ),
    ];
    expect_one(&rt, &guest, &rows);
}
