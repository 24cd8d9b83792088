//! A forwarder that is told what the registers say.
ghost use Rattle.std.specs.Prelude.{◌≡◌, []};

use crate::words::{CFGI_STE, UNSUPPORTED};
use batch::Batch;
use hardware_queue::{
    Acknowledgement, CommandError, Forwarded, Forwarder, Owner, Progress, RegisterWords, Remedy,
    Restart, Stopped,
};
use qindex::Geometry;
use ring::{Ring, RingFault};
use shadow_queue::{ShadowQueue, poll_msi};
use std::process::Abort;

/// The owner of a queue of four slots, whose registers the test reads.
fn owner<R: AllocGlobal + Abort>(rt: &R) -> Owner<ShadowQueue>
    ensures shown { result.queue.shown ≡ [] }
    ensures consumed { result.queue.consumed ≡ 0 }
    ensures lost { result.queue.lost ≡ [] }
{
    let geometry = Geometry::new(2).expect(rt, "1 to 19");
    let queue = ShadowQueue::new(rt.alloc(), geometry).expect(rt, "memory");
    Owner::new(queue, geometry)
}

/// A call of `forward` that must answer this.
fn forward<R: Abort>(rt: &R, ring: &Ring, forwarder: &mut Forwarder<ShadowQueue>, wanted: Forwarded)
    requires { forwarder.old.consumer.consumer.ring ≡ ring.now }
    ensures { forwarder.new.consumer.consumer.ring ≡ ring.now }
{
    let answer = forwarder.forward(ring);
    assert_eq!(rt; answer, wanted);
}

/// A look that must find this where SMMU_GERROR and SMMU_CMDQ_CONS have these values.
fn look<R: Abort>(
    rt: &R,
    ring: &Ring,
    forwarder: &mut Forwarder<ShadowQueue>,
    gerror: u32,
    cons: u32,
    wanted: Progress,
)
    requires { forwarder.old.consumer.consumer.ring ≡ ring.now }
    ensures { forwarder.new.consumer.consumer.ring ≡ ring.now }
{
    let found = forwarder.poll_words(ring, RegisterWords { gerror, cons });
    assert_eq!(rt; found, wanted);
}

#[test]
fn told_once_cons_is_behind_its_sync(rt: HostRuntime) -> Result<(), RingFault> {
    let (ring, mut senders, consumer) = Ring::new(rt.alloc(), 3, 1, 100)?;
    let sender = senders.pop().expect(&rt, "one sender");
    let made = Forwarder::new(rt.alloc(), consumer, owner(&rt), 1);
    let mut forwarder = made.expect(&rt, "memory");
    let batch = Batch::new(CFGI_STE).expect(&rt, "no CMD_SYNC");
    let Ok((mut sender, receipt)) = sender.send(&ring, &batch, 1) else {
        panic!(rt; "the batch is refused");
    };
    forward(&rt, &ring, &mut forwarder, Forwarded::Shown(2));
    look(&rt, &ring, &mut forwarder, 0, 0, Progress::Consumed(0));
    assert!(rt; !sender.is_done(&ring, &receipt));
    look(&rt, &ring, &mut forwarder, 0, 2, Progress::Consumed(2));
    assert!(rt; sender.is_done(&ring, &receipt));
    Ok(())
}

#[test]
fn what_to_write_at_an_error(rt: HostRuntime) -> Result<(), RingFault> {
    let (ring, mut senders, consumer) = Ring::new(rt.alloc(), 3, 1, 100)?;
    let sender = senders.pop().expect(&rt, "one sender");
    let made = Forwarder::new(rt.alloc(), consumer, owner(&rt), 1);
    let mut forwarder = made.expect(&rt, "memory");
    let commands = [CFGI_STE, UNSUPPORTED];
    let batch = Batch::from_raws(commands.as_slice()).expect(&rt, "no CMD_SYNC");
    let Ok((_sender, _receipt)) = sender.send(&ring, &batch, 1) else {
        panic!(rt; "the batch is refused");
    };
    forward(&rt, &ring, &mut forwarder, Forwarded::Shown(3));
    let error = CommandError::Illegal;
    let stop = Progress::Stopped { consumed: 1, error };
    look(&rt, &ring, &mut forwarder, 1, (1 << 24) + 1, stop);
    // GERRORN has another error's bit, which stays.
    let command = UNSUPPORTED;
    let acknowledgement = Acknowledgement {
        stopped: Stopped { command, error },
        slot: Some(1),
        gerrorn: 5,
    };
    let told = forwarder.acknowledge_words(Remedy::Replace, 4);
    assert_eq!(rt; told, Ok(acknowledgement));
    look(&rt, &ring, &mut forwarder, 1, 2, Progress::Consumed(1));
    Ok(())
}

#[test]
fn nobody_is_told_by_words_that_no_queue_has(rt: HostRuntime) -> Result<(), RingFault> {
    let (ring, mut senders, consumer) = Ring::new(rt.alloc(), 3, 1, 100)?;
    let sender = senders.pop().expect(&rt, "one sender");
    let made = Forwarder::new(rt.alloc(), consumer, owner(&rt), 1);
    let mut forwarder = made.expect(&rt, "memory");
    let batch = Batch::new(CFGI_STE).expect(&rt, "no CMD_SYNC");
    let Ok((mut sender, receipt)) = sender.send(&ring, &batch, 1) else {
        panic!(rt; "the batch is refused");
    };
    forward(&rt, &ring, &mut forwarder, Forwarded::Shown(2));
    // RD is ahead of PROD.
    look(&rt, &ring, &mut forwarder, 0, 3, Progress::Broken(3));
    look(&rt, &ring, &mut forwarder, 0, 2, Progress::Broken(3));
    assert!(rt; !sender.is_done(&ring, &receipt));
    Ok(())
}

#[test]
fn a_broken_queue_is_restarted(rt: HostRuntime) -> Result<(), RingFault> {
    let (ring, mut senders, consumer) = Ring::new(rt.alloc(), 3, 1, 100)?;
    let sender = senders.pop().expect(&rt, "one sender");
    let made = Forwarder::new(rt.alloc(), consumer, owner(&rt), 1);
    let mut forwarder = made.expect(&rt, "memory");
    let batch = Batch::new(CFGI_STE).expect(&rt, "no CMD_SYNC");
    let Ok((mut sender, receipt)) = sender.send(&ring, &batch, 1) else {
        panic!(rt; "the batch is refused");
    };
    forward(&rt, &ring, &mut forwarder, Forwarded::Shown(2));
    look(&rt, &ring, &mut forwarder, 0, 1, Progress::Consumed(1));
    look(&rt, &ring, &mut forwarder, 0, 3, Progress::Broken(3));
    // From the CMD_SYNC on, with CMDQ_ERR of SMMU_GERRORN set.
    let restart = forwarder.restart_words(1);
    assert_eq!(rt; restart, Restart { prod: 2, cons: 1 });
    look(&rt, &ring, &mut forwarder, 1, 1, Progress::Consumed(0));
    assert!(rt; !sender.is_done(&ring, &receipt));
    look(&rt, &ring, &mut forwarder, 1, 2, Progress::Consumed(1));
    assert!(rt; sender.is_done(&ring, &receipt));
    Ok(())
}

#[test]
fn told_by_an_msi(rt: HostRuntime) -> Result<(), RingFault> {
    let (ring, mut senders, consumer) = Ring::new(rt.alloc(), 3, 1, 100)?;
    let sender = senders.pop().expect(&rt, "one sender");
    let made = Forwarder::new(rt.alloc(), consumer, owner(&rt), 1);
    let mut forwarder = made.expect(&rt, "memory");
    let batch = Batch::new(CFGI_STE).expect(&rt, "no CMD_SYNC");
    let Ok((mut sender, receipt)) = sender.send(&ring, &batch, 1) else {
        panic!(rt; "the batch is refused");
    };
    forward(&rt, &ring, &mut forwarder, Forwarded::Shown(2));
    assert_eq!(rt; poll_msi(&mut forwarder, &ring, 3), None);
    assert!(rt; !sender.is_done(&ring, &receipt));
    assert_eq!(rt; poll_msi(&mut forwarder, &ring, 2), Some(2));
    assert!(rt; sender.is_done(&ring, &receipt));
    assert_eq!(rt; poll_msi(&mut forwarder, &ring, 0), None);
    Ok(())
}
