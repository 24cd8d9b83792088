//! Streams that are attached and detached.
use crate::guest_commands_tests::expecting::{
    attach, expect_nothing, expect_one, full, guest, sid,
};
use guest_commands::{AttachFault, HostStream};

#[test]
fn refused(rt: HostRuntime) {
    let mut guest = guest(&rt, full());
    for (host, fault) in [
        (0x1_0000, AttachFault::OutOfRange),
        (0x103, AttachFault::Used),
    ] {
        let host = HostStream {
            sid: sid(&rt, host),
            ats: false,
        };
        assert_eq!(rt; guest.attach(sid(&rt, 5), host), Err(fault));
    }
    assert!(rt; guest.streams().len() == 3 && guest.is_used(sid(&rt, 0x105)));
    assert!(rt; AttachFault::Used.label() == "V2" && AttachFault::Full.label() == "V3");
}

#[test]
fn as_many_as_a_batch_has_commands(rt: HostRuntime) {
    let mut guest = guest(&rt, full());
    for host in 0x200..0x23f {
        attach(&rt, &mut guest, 5, host, false);
    }
    let host = HostStream {
        sid: sid(&rt, 0x23f),
        ats: false,
    };
    assert_eq!(rt; guest.attach(sid(&rt, 5), host), Err(AttachFault::Full));
    assert_eq!(rt; guest.attach(sid(&rt, 6), host), Ok(()));
    assert!(rt; guest.vmid().get() == 0x21 && guest.smmu().stage_1);
}

#[test]
fn detached(rt: HostRuntime) {
    let mut guest = guest(&rt, full());
    guest.detach(sid(&rt, 4));
    expect_nothing(&rt, &guest, &[(0x0000_0004_0000_0006, 0)]);
    assert!(rt; !guest.is_used(sid(&rt, 0x104)));
    attach(&rt, &mut guest, 4, 0x105, false);
    let rows = [((0x0000_0004_0000_0006, 0), (0x0000_0105_0000_0006, 0))];
    expect_one(&rt, &guest, &rows);
}
