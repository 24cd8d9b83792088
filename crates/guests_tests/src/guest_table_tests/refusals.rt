//! Refused calls.
use crate::guest_table_tests::making::{host, narrow, sid, two_guests, vmid};
use guest_table::{GuestTable, TableFault};

#[test]
fn of_attach(rt: HostRuntime) {
    let mut table = two_guests(&rt);
    for (guest, stream, fault) in [
        (3, 0x104, TableFault::NoGuest),
        (2, 0x103, TableFault::Used),
        (1, 0x103, TableFault::Used),
        (2, 0x1_0000, TableFault::OutOfRange),
    ] {
        let answer = table.attach(vmid(&rt, guest), sid(&rt, 5), host(&rt, stream));
        assert_eq!(rt; answer, Err(fault));
    }
    assert_eq!(rt; table.detach(vmid(&rt, 1), sid(&rt, 3)), Ok(()));
    let answer = table.attach(vmid(&rt, 1), sid(&rt, 3), host(&rt, 0x103));
    assert_eq!(rt; answer, Err(TableFault::Leaving));
}

#[test]
fn of_detach_and_remove(rt: HostRuntime) {
    let mut table = two_guests(&rt);
    assert_eq!(rt;
        table.detach(vmid(&rt, 3), sid(&rt, 3)),
        Err(TableFault::NoGuest)
    );
    assert_eq!(rt; table.remove(vmid(&rt, 3)), Err(TableFault::NoGuest));
    assert_eq!(rt; table.remove(vmid(&rt, 1)), Err(TableFault::HasStreams));
    assert!(rt; table.guest(vmid(&rt, 1)).is_some() && table.guest(vmid(&rt, 3)).is_none());
}

#[test]
fn as_many_guests_as_vmids(rt: HostRuntime) {
    let mut table = GuestTable::new(rt.alloc(), narrow());
    for _ in 1..256 {
        assert!(rt; table.add().is_ok());
    }
    assert_eq!(rt; table.add(), Err(TableFault::NoVmid));
    table.guests_are_separate();
    // A VMID that was used isn't given out before it is released.
    assert_eq!(rt; table.remove(vmid(&rt, 7)), Ok(()));
    assert_eq!(rt; table.add(), Err(TableFault::NoVmid));
    table.release_vmid(vmid(&rt, 7));
    assert_eq!(rt; table.add(), Ok(vmid(&rt, 7)));
}
