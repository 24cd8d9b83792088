//! An owner's calls, with a unit as the hardware.
use crate::words::{CFGI_STE, ILLEGAL, owner};
use hardware_queue::{CommandError, Owner, Progress, QueueState, Remedy, RemedyFault};
use unit_queue::UnitQueue;

#[test]
fn six_commands_in_four_slots(rt: HostRuntime) {
    let mut owner = owner(&rt, 2);
    // Four of six fit. The hardware consumes one a look, and then there is room for one more.
    assert_eq!(rt; owner.push([CFGI_STE; 6].as_slice()), 4);
    assert_eq!(rt; owner.room(), 0);
    for _ in 0..4 {
        let _progress = look(&mut owner);
    }
    assert_eq!(rt; owner.room(), 4);
}

/// Looks, unless something that no working queue has was found.
fn look(owner: &mut Owner<UnitQueue>) -> Option<Progress> {
    if let QueueState::Running = owner.state() {
        return Some(owner.poll());
    }
    None
}

#[test]
fn an_illegal_command_is_replaced(rt: HostRuntime) {
    let mut owner = owner(&rt, 2);
    assert_eq!(rt; owner.push([ILLEGAL, CFGI_STE].as_slice()), 2);
    assert_eq!(rt;
        owner.acknowledge(Remedy::Retry),
        Err(RemedyFault::NotStopped)
    );
    // The unit stops as it reads it, and the next look finds that.
    assert_eq!(rt; look(&mut owner), Some(Progress::Consumed(0)));
    let error = CommandError::Illegal;
    assert_eq!(rt;
        look(&mut owner),
        Some(Progress::Stopped { consumed: 0, error })
    );
    assert_eq!(rt; owner.state(), QueueState::Stopped(error));
    assert!(rt; owner.acknowledge(Remedy::Replace).is_ok());
    // The CMD_SYNC in its place.
    assert_eq!(rt; look(&mut owner), Some(Progress::Consumed(1)));
}
