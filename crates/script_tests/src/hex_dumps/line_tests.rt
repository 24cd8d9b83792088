//! Lines as xxd prints them: slots 4 and 5 of examples/linux/msi-2p7.image, TLBI_NH_VA and CMD_SYNC. Those of other tools,
//! and lines that are bad, are in tests/hex-dump.cases.
use cmdcodec::Raw;
use hex_dump::{DumpLine, Dumped, dump_line};
use std::process::Abort;

const FIRST: Raw = Raw {
    lo: 0x0007_0000_0050_0012,
    hi: 0x0000_0007_6840_0701,
};

const SECOND: Raw = Raw {
    lo: 0x0000_0000_0fc0_1046,
    hi: 0x0000_0000_4399_1050,
};

// The theorem of `dump_line` isn't passed on, since it would be costly in each test.
fn said_by(line: &str) -> Dumped {
    dump_line(line.as_bytes())
}

fn expect_slot<R: Abort>(rt: &R, line: &str, address: u64, raw: Raw) {
    assert_eq!(rt; said_by(line), Dumped::Slot(DumpLine { address, raw }));
}

#[test]
fn xxd(rt: HostRuntime) {
    let line = "00000000: 1200 5000 0000 0700 0107 4068 0700 0000  ..P.......@h....";
    expect_slot(&rt, line, 0, FIRST);
    let line = "00000010: 4610 c00f 0000 0000 5010 9943 0000 0000  F.......P..C....\r";
    expect_slot(&rt, line, 16, SECOND);
}
