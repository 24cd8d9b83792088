//! Commands of streams.
use crate::guest_commands_tests::expecting::{expect_nothing, expect_one, expect_two, full, guest};

#[test]
fn descriptors(rt: HostRuntime) {
    let guest = guest(&rt, full());
    let rows = [
        // CMD_CFGI_CD of the last substream, Leaf 1
        (
            (0x0000_0003_000f_fb05, 0xffff_ffff_ffff_ffff),
            (0x0000_0103_000f_f005, 1),
        ),
        // CMD_CFGI_CD_ALL
        (
            (0x0000_0003_ffff_fb06, 0xffff_ffff_ffff_ffff),
            (0x0000_0103_0000_0006, 0),
        ),
    ];
    expect_one(&rt, &guest, &rows);
    // of substream 256, and of a stream that the guest doesn't have
    let rows = [
        (0x0000_0003_0010_0005, 0),
        (0x0000_0103_0000_0005, 0),
        (0x0000_0103_0000_0006, 0),
    ];
    expect_nothing(&rt, &guest, &rows);
}

#[test]
fn two_streams_of_the_host(rt: HostRuntime) {
    let guest = guest(&rt, full());
    expect_two(
        &rt,
        &guest,
        (0x0000_0004_0000_2005, 0),
        [(0x0000_0104_0000_2005, 0), (0x0000_0105_0000_2005, 0)],
    );
    expect_two(
        &rt,
        &guest,
        (0x0000_0004_0000_0006, 0),
        [(0x0000_0104_0000_0006, 0), (0x0000_0105_0000_0006, 0)],
    );
}

#[test]
fn endpoints(rt: HostRuntime) {
    let guest = guest(&rt, full());
    let rows = [
        // CMD_ATC_INV of 8 pages of substream 2; only one of the two streams has ATS.
        (
            (0x0000_0004_0000_2840, 0x1234_5003),
            (0x0000_0104_0000_2840, 0x1234_5003),
        ),
        // SSV 0: SubstreamID and Global mean nothing.
        (
            (0x0000_0003_0000_2340, 0x1234_5ff4),
            (0x0000_0103_0000_0040, 0x1234_5034),
        ),
        // SSV 1, Global 1: SubstreamID means nothing.
        (
            (0x0000_0003_0000_2a40, 0x1234_5000),
            (0x0000_0103_0000_0a40, 0x1234_5000),
        ),
    ];
    expect_one(&rt, &guest, &rows);
    // SSV 1 and substream 256, and a stream that the guest doesn't have
    let rows = [(0x0000_0003_0010_0840, 52), (0x0000_0103_0000_0040, 52)];
    expect_nothing(&rt, &guest, &rows);
}

/// CMD_PREFETCH_CONFIG and CMD_PREFETCH_ADDR.
#[test]
fn prefetches(rt: HostRuntime) {
    let rows = [
        (0x0000_0003_0000_0001, 0),
        (0x0000_0003_0000_0002, 0x1234_5000),
    ];
    expect_nothing(&rt, &guest(&rt, full()), &rows);
}
