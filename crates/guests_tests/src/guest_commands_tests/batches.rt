//! Several commands at once.
use crate::guest_commands_tests::expecting::{full, guest};
use cmdcodec::Raw;
use guest_commands::{Ended, Stop};

/// CMD_TLBI_NH_ALL.
const TLBI: Raw = Raw { lo: 0x10, hi: 0 };

/// CMD_CFGI_CD_ALL of stream 4, which is two of the host.
const CFGI: Raw = Raw {
    lo: 0x0000_0004_0000_0006,
    hi: 0,
};

const SYNC: Raw = Raw { lo: 0x46, hi: 0 };

#[test]
fn as_many_as_fit(rt: HostRuntime) {
    let guest = guest(&rt, full());
    let own = [TLBI; 64];
    let converted = guest.convert_all(&own);
    assert!(rt; converted.taken() == 63 && converted.commands().len() == 63);
    assert!(rt; converted.ended() == Ended::Full);
    let converted = guest.convert_all(&own[63..]);
    assert!(rt; converted.taken() == 1 && converted.ended() == Ended::End);
    assert!(rt; converted.guest().streams().len() == 3);
}

#[test]
fn two_do_not_fit_where_one_does(rt: HostRuntime) {
    let guest = guest(&rt, full());
    let mut own = [TLBI; 64];
    own[62] = CFGI;
    let converted = guest.convert_all(&own);
    assert!(rt; converted.taken() == 62 && converted.commands().len() == 62);
    assert!(rt; converted.ended() == Ended::Full);
    let mut own = [TLBI; 64];
    own[61] = CFGI;
    let converted = guest.convert_all(&own);
    assert!(rt; converted.taken() == 62 && converted.commands().len() == 63);
}

#[test]
fn up_to_a_sync(rt: HostRuntime) {
    let guest = guest(&rt, full());
    let converted = guest.convert_all(&[CFGI, TLBI, SYNC, TLBI]);
    assert!(rt; converted.taken() == 2 && converted.commands().len() == 3);
    assert!(rt; converted.ended() == Ended::At(Stop::Sync));
    let nothing = guest.convert_all(&[]);
    assert!(rt; nothing.taken() == 0 && nothing.ended() == Ended::End);
}
