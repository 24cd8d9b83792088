//! Stream table entries that the guest changed.
use crate::guest_commands_tests::expecting::{full, guest, sid};
use cmdcodec::{Command, Raw, StreamRange};

#[test]
fn one_entry(rt: HostRuntime) {
    let guest = guest(&rt, full());
    let command = Command::CfgiSte {
        sid: sid(&rt, 4),
        leaf: true,
    };
    let mut configuration = guest.configuration(&command);
    for host in [0x104, 0x105] {
        let stream = configuration.next().expect(&rt, "left");
        assert!(rt; stream.sid == sid(&rt, 4) && stream.host.sid == sid(&rt, host));
        let wanted = Raw {
            lo: host << 32 | 0x03,
            hi: 0,
        };
        assert_eq!(rt; stream.host.invalidate_entry(), wanted);
    }
    assert!(rt; configuration.next().is_none());
}

/// The four entries from stream 0 on.
#[test]
fn some_entries(rt: HostRuntime) {
    let guest = guest(&rt, full());
    let command = Command::CfgiSteRange {
        sid: sid(&rt, 2),
        range: StreamRange::new(1).expect(&rt, "5 bits"),
    };
    let mut configuration = guest.configuration(&command);
    let stream = configuration.next().expect(&rt, "left");
    assert!(rt; stream.sid == sid(&rt, 3) && stream.host.sid == sid(&rt, 0x103));
    assert!(rt; configuration.next().is_none());
}
