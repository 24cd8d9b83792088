//! Words whose reserved bits are set, and what is left of them.
use cmdcodec::{Ill, Raw};
use range_hints::without_reserved_bits;
use std::process::Abort;

fn expect_cleared(rt: &impl Abort, raw: (u64, u64), words: (u64, u64)) {
    let (lo, hi) = raw;
    let cleared = without_reserved_bits(Raw { lo, hi });
    let (lo, hi) = words;
    assert_eq!(rt; cleared, Ok(Raw { lo, hi }));
}

#[test]
fn by_address(rt: HostRuntime) {
    // CMD_TLBI_NH_VA with TG 1: bits 11:8, 19:17 and 31:25 of lo and 7:1 of hi.
    expect_cleared(
        &rt,
        (0x0002_0001_fe5e_3f12, 0x1_07ff),
        (0x0002_0001_0050_3012, 0x1_0701),
    );
    // With TG 0 it has no NUM and SCALE.
    expect_cleared(
        &rt,
        (0x0002_0001_0050_3012, 0x1_0301),
        (0x0002_0001_0000_0012, 0x1_0301),
    );
    // CMD_TLBI_S2_IPA: 63:52 of hi, and 63:48 of lo.
    expect_cleared(
        &rt,
        (0xffff_0001_0000_002a, 0xfff0_0000_0001_0601),
        (0x0001_0000_002a, 0x1_0601),
    );
}

#[test]
fn others(rt: HostRuntime) {
    // CMD_TLBI_NH_ALL has a VMID alone, CMD_ATC_INV lacks 8 of lo and 11:6 of hi.
    expect_cleared(
        &rt,
        (0xffff_0001_ffff_ff10, 0xffff_ffff_ffff_ffff),
        (0x0001_0000_0010, 0),
    );
    expect_cleared(&rt, (0x7_0000_9b40, 0x1_cfc4), (0x7_0000_9a40, 0x1_c004));
    // A CMD_PRI_RESP is kept.
    expect_cleared(
        &rt,
        (0xffff_ffff_ffff_ff41, 0xffff),
        (0xffff_ffff_ffff_ff41, 0xffff),
    );
    // A CMD_SYNC with CS 3.
    let reserved = Raw { lo: 0x3046, hi: 0 };
    assert_eq!(rt; without_reserved_bits(reserved), Err(Ill::ReservedSignal));
}
