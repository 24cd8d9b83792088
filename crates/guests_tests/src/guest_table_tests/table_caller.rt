//! The caller that the README of guest_table shows.
use crate::guest_table_tests::making::{host, sid, wide};
use crate::guest_table_tests::moving::detach;
use guest_table::{GuestTable, TableFault};
use ring::RingFault;

#[test]
fn a_stream_moves(rt: HostRuntime) -> Result<(), RingFault> {
    let mut table = GuestTable::new(rt.alloc(), wide());
    let one = table.add().expect(&rt, "a VMID and memory");
    let other = table.add().expect(&rt, "a VMID and memory");
    assert_eq!(rt; (one.get(), other.get()), (1, 2));
    let stream = host(&rt, 0x103);
    assert_eq!(rt; table.attach(one, sid(&rt, 3), stream), Ok(()));
    assert_eq!(rt;
        table.attach(other, sid(&rt, 9), stream),
        Err(TableFault::Used)
    );
    // It is taken from the one. Until its detachment is told, nobody gets it.
    assert_eq!(rt; table.detach(one, sid(&rt, 3)), Ok(()));
    assert_eq!(rt;
        table.attach(other, sid(&rt, 9), stream),
        Err(TableFault::Leaving)
    );
    table.release(detach(&rt, rt.alloc(), stream)?);
    assert_eq!(rt; table.attach(other, sid(&rt, 9), stream), Ok(()));
    let guest = table.guest(other).expect(&rt, "it is there");
    assert!(rt; guest.is_used(stream.sid));
    // The one has no streams left, and goes; its VMID waits for its own invalidation.
    assert_eq!(rt; table.remove(one), Ok(()));
    let third = table.add().expect(&rt, "a VMID and memory");
    assert_eq!(rt; third.get(), 3);
    table.release_vmid(one);
    assert_eq!(rt; table.add(), Ok(one));
    Ok(())
}
