//! What commands for the configuration reach, and commands for nothing.
use crate::regions_tests::fields::{region, sid, ssid};
use regions::{Region, Substreams};

#[test]
fn streams(rt: HostRuntime) {
    let streams = |first, last| Region::Streams { first, last };
    // CMD_CFGI_STE of stream 5.
    assert_eq!(rt;
        region(&rt, 0x5_0000_0003, 1),
        streams(sid(&rt, 5), sid(&rt, 5))
    );
    // CMD_CFGI_STE_RANGE with Range 2: the eight streams from 8 on hold stream 13.
    assert_eq!(rt;
        region(&rt, 0xd_0000_0004, 2),
        streams(sid(&rt, 8), sid(&rt, 15))
    );
    // Range 31: all streams.
    let last = sid(&rt, 0xffff_ffff);
    assert_eq!(rt; region(&rt, 0xd_0000_0004, 31), streams(sid(&rt, 0), last));
}

#[test]
fn descriptors(rt: HostRuntime) {
    // CMD_CFGI_CD of stream 5 and substream 1, and CMD_CFGI_CD_ALL of stream 5.
    let one = Region::Descriptors {
        sid: sid(&rt, 5),
        substreams: Substreams::One(ssid(&rt, 1)),
    };
    let every = Region::Descriptors {
        sid: sid(&rt, 5),
        substreams: Substreams::Every,
    };
    assert_eq!(rt; region(&rt, 0x5_0000_1005, 1), one);
    assert_eq!(rt; region(&rt, 0x5_0000_0006, 0), every);
}

#[test]
fn nothing(rt: HostRuntime) {
    // CMD_SYNC, CMD_PRI_RESP and CMD_PREFETCH_CONFIG.
    assert_eq!(rt; region(&rt, 0x46, 0), Region::Nothing);
    assert_eq!(rt; region(&rt, 0x5_0000_0041, 7), Region::Nothing);
    assert_eq!(rt; region(&rt, 0x5_0000_0001, 0), Region::Nothing);
}
