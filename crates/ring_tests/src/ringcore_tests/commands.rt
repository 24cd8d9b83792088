//! The commands of a batch of sender 3.
use cmdcodec::Raw;
use ringcore::batch_commands;

/// A CMD_CFGI_ALL and a CMD_TLBI_NSNH_ALL.
const BODY: [Raw; 2] = [Raw { lo: 0x4, hi: 31 }, Raw { lo: 0x30, hi: 0 }];

/// Its CMD_SYNC of number 7.
const SYNC: Raw = Raw {
    lo: 0x7_0000_1046,
    hi: 0x4000_000C,
};

#[test]
fn closing_sync_behind_the_body(rt: HostRuntime) {
    let closing = batch_commands(3, &BODY, Some(7));
    assert_eq!(rt; closing.as_slice(), [BODY[0], BODY[1], SYNC].as_slice());
    let bare = batch_commands(3, &BODY, None);
    assert_eq!(rt; bare.as_slice(), BODY.as_slice());
}
