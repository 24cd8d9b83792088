//! Commands of real Linux guests, of examples/linux, a few of each kind: lo, hi.
use cmdcodec::Raw;
use range_hints::without_reserved_bits;

/// Without a range; at EL2 (0x22) and at stage 1 (0x12) with a TTL of 0, 2 and 3, and several of NUM and SCALE; and a
/// CMD_SYNC with an MSI.
const WORDS: [(u64, u64); 23] = [
    (0x4, 0x1f),
    (0xfc0_2046, 0x0),
    (0x20, 0x0),
    (0x30, 0x0),
    (0x10_0000_0003, 0x1),
    (0x10_0000_0001, 0x0),
    (0x1_0000_0000_0021, 0x0),
    (0x4_0000_0000_0022, 0x701),
    (0x4_0000_0020_a022, 0x31_6e9b_1701),
    (0x4_0000_0090_0022, 0x15_21c0_0400),
    (0x4_0000_0051_e022, 0x1d_b485_7701),
    (0x4_0000_0091_2022, 0x26_34c0_0601),
    (0x4_0000_00a0_a022, 0x36_2460_0601),
    (0x4_0000_00d0_0022, 0x5_4200_0601),
    (0x7_0000_0000_0012, 0x35_8106_a701),
    (0x7_0000_0051_e012, 0x2b_0599_e701),
    (0x7_0000_0090_0012, 0x36_3040_0400),
    (0x7_0000_0090_a012, 0x1b_bde0_0601),
    (0x7_0000_00c0_2012, 0x2_d340_0601),
    (0x7_0000_00d0_0012, 0x3c_b940_0601),
    (0x7_0000_0071_8012, 0x12_96b8_0701),
    (0x7_0000_0000_0011, 0x0),
    (0xfc0_1046, 0x4399_1010),
];

#[test]
fn keep_every_bit(rt: HostRuntime) {
    for (lo, hi) in WORDS {
        let raw = Raw { lo, hi };
        assert_eq!(rt; without_reserved_bits(raw), Ok(raw));
    }
}
