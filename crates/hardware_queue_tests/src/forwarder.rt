//! Senders, a ring, a forwarder, and a unit as the hardware.
ghost use Rattle.std.specs.Prelude.{◌≡◌, []};

use crate::words::{CFGI_STE, ILLEGAL, UNSUPPORTED, owner};
use batch::Batch;
use hardware_queue::{BatchOutcome, CommandError, Forwarded, Forwarder, Progress, Remedy, Stopped};
use ring::{Ring, RingFault, Sender, Summary};
use std::alloc::AllocError;
use std::process::Abort;
use unit_queue::UnitQueue;

/// A call of `forward` that must answer this.
fn forward<R: Abort>(rt: &R, ring: &Ring, forwarder: &mut Forwarder<UnitQueue>, wanted: Forwarded)
    requires { forwarder.old.consumer.consumer.ring ≡ ring.now }
    ensures { forwarder.new.consumer.consumer.ring ≡ ring.now }
{
    let answer = forwarder.forward(ring);
    assert_eq!(rt; answer, wanted);
}

/// A look that must find this.
fn poll<R: Abort>(rt: &R, ring: &Ring, forwarder: &mut Forwarder<UnitQueue>, wanted: Progress)
    requires { forwarder.old.consumer.consumer.ring ≡ ring.now }
    ensures { forwarder.new.consumer.consumer.ring ≡ ring.now }
{
    let found = forwarder.poll(ring);
    assert_eq!(rt; found, wanted);
}

/// Puts the sender back into the list, and ends.
fn finish(
    ring: Ring,
    mut senders: Vec<Sender>,
    sender: Sender,
    forwarder: Forwarder<UnitQueue>,
) -> Result<(Summary, UnitQueue), AllocError>
    requires senders { senders.items ≡ [] }
    requires one { ring.made_with.senders ≡ 1 }
    requires sender { sender.ring ≡ ring }
    requires number { sender.number ≡ 0 }
    requires forwarder { forwarder.consumer.consumer.ring ≡ ring }
{
    senders.push(sender)?;
    Ok(forwarder.finish(ring, senders))
}

#[test]
fn told_only_behind_its_sync(rt: HostRuntime) -> Result<(), RingFault> {
    let (ring, mut senders, consumer) = Ring::new(rt.alloc(), 3, 1, 100)?;
    let sender = senders.pop().expect(&rt, "one sender");
    let made = Forwarder::new(rt.alloc(), consumer, owner(&rt, 1), 1);
    let mut forwarder = made.expect(&rt, "memory");
    forward(&rt, &ring, &mut forwarder, Forwarded::Empty);
    let batch = Batch::new(CFGI_STE).expect(&rt, "no CMD_SYNC");
    let Ok((mut sender, receipt)) = sender.send(&ring, &batch, 1) else {
        panic!(rt; "the batch is refused");
    };
    // Both fit in the two slots, and the hardware consumes one a look.
    forward(&rt, &ring, &mut forwarder, Forwarded::Shown(2));
    forward(&rt, &ring, &mut forwarder, Forwarded::Full);
    poll(&rt, &ring, &mut forwarder, Progress::Consumed(1));
    assert!(rt; !sender.is_done(&ring, &receipt));
    poll(&rt, &ring, &mut forwarder, Progress::Consumed(1));
    assert!(rt; sender.is_done(&ring, &receipt));
    forwarder.told(&ring, &mut sender);
    Ok(())
}

#[test]
fn an_illegal_command_stays_here(rt: HostRuntime) -> Result<(), RingFault> {
    let (ring, mut senders, consumer) = Ring::new(rt.alloc(), 3, 1, 100)?;
    let sender = senders.pop().expect(&rt, "one sender");
    let made = Forwarder::new(rt.alloc(), consumer, owner(&rt, 1), 1);
    let mut forwarder = made.expect(&rt, "memory");
    let commands = [ILLEGAL, CFGI_STE];
    let batch = Batch::from_raws(commands.as_slice()).expect(&rt, "no CMD_SYNC");
    let Ok((sender, _receipt)) = sender.send(&ring, &batch, 1) else {
        panic!(rt; "the batch is refused");
    };
    forward(&rt, &ring, &mut forwarder, Forwarded::Replaced(ILLEGAL));
    forward(&rt, &ring, &mut forwarder, Forwarded::Shown(1));
    // The two in flight are settled by one look.
    poll(&rt, &ring, &mut forwarder, Progress::Consumed(1));
    assert_eq!(rt; forwarder.in_flight(), 0);
    forward(&rt, &ring, &mut forwarder, Forwarded::Shown(1));
    let (summary, _queue) = finish(ring, senders, sender, forwarder).expect(&rt, "memory");
    // Its CMD_SYNC is in flight.
    assert_eq!(rt; (summary.reserved(), summary.taken()), (3, 3));
    Ok(())
}

#[test]
fn an_unsupported_command_is_lost(rt: HostRuntime) -> Result<(), RingFault> {
    let (ring, mut senders, consumer) = Ring::new(rt.alloc(), 3, 1, 100)?;
    let sender = senders.pop().expect(&rt, "one sender");
    let made = Forwarder::new(rt.alloc(), consumer, owner(&rt, 1), 1);
    let mut forwarder = made.expect(&rt, "memory");
    let batch = Batch::new(UNSUPPORTED).expect(&rt, "no CMD_SYNC");
    let Ok((mut sender, receipt)) = sender.send(&ring, &batch, 1) else {
        panic!(rt; "the batch is refused");
    };
    forward(&rt, &ring, &mut forwarder, Forwarded::Shown(2));
    // The unit stops as it reads it, and the next look finds that.
    poll(&rt, &ring, &mut forwarder, Progress::Consumed(0));
    let error = CommandError::Illegal;
    let stop = Progress::Stopped { consumed: 0, error };
    poll(&rt, &ring, &mut forwarder, stop);
    let command = UNSUPPORTED;
    let stopped = Stopped { command, error };
    assert_eq!(rt; forwarder.stopped(), Some(stopped));
    assert_eq!(rt; forwarder.acknowledge(Remedy::Replace), Ok(stopped));
    assert_eq!(rt; forwarder.lost(), 1);
    // The CMD_SYNC in its place, and then the sender's own.
    poll(&rt, &ring, &mut forwarder, Progress::Consumed(1));
    poll(&rt, &ring, &mut forwarder, Progress::Consumed(1));
    assert!(rt; sender.is_done(&ring, &receipt));
    assert_eq!(rt; forwarder.outcome(&receipt), BatchOutcome::Lost(1));
    Ok(())
}

#[test]
fn a_restart_reads_again_what_is_not_consumed(rt: HostRuntime) -> Result<(), RingFault> {
    let (ring, mut senders, consumer) = Ring::new(rt.alloc(), 3, 1, 100)?;
    let sender = senders.pop().expect(&rt, "one sender");
    let made = Forwarder::new(rt.alloc(), consumer, owner(&rt, 2), 1);
    let mut forwarder = made.expect(&rt, "memory");
    let commands = [CFGI_STE, UNSUPPORTED];
    let batch = Batch::from_raws(commands.as_slice()).expect(&rt, "no CMD_SYNC");
    let Ok((mut sender, receipt)) = sender.send(&ring, &batch, 1) else {
        panic!(rt; "the batch is refused");
    };
    forward(&rt, &ring, &mut forwarder, Forwarded::Shown(3));
    poll(&rt, &ring, &mut forwarder, Progress::Consumed(1));
    poll(&rt, &ring, &mut forwarder, Progress::Consumed(0));
    let error = CommandError::Illegal;
    let stop = Progress::Stopped { consumed: 0, error };
    poll(&rt, &ring, &mut forwarder, stop);
    // Nobody acknowledged the error: it stops there again.
    forwarder.restart();
    assert_eq!(rt; forwarder.in_flight(), 2);
    poll(&rt, &ring, &mut forwarder, Progress::Consumed(0));
    poll(&rt, &ring, &mut forwarder, stop);
    assert!(rt; forwarder.acknowledge(Remedy::Replace).is_ok());
    // What was written over stays so.
    forwarder.restart();
    poll(&rt, &ring, &mut forwarder, Progress::Consumed(1));
    assert!(rt; !sender.is_done(&ring, &receipt));
    poll(&rt, &ring, &mut forwarder, Progress::Consumed(1));
    assert!(rt; sender.is_done(&ring, &receipt));
    assert_eq!(rt; forwarder.outcome(&receipt), BatchOutcome::Lost(1));
    assert_eq!(rt; forwarder.outcome_of(0, 1), BatchOutcome::Lost(1));
    Ok(())
}

#[test]
fn an_illegal_command_between_two_batches(rt: HostRuntime) -> Result<(), RingFault> {
    let (ring, mut senders, consumer) = Ring::new(rt.alloc(), 3, 1, 100)?;
    let sender = senders.pop().expect(&rt, "one sender");
    let made = Forwarder::new(rt.alloc(), consumer, owner(&rt, 3), 1);
    let mut forwarder = made.expect(&rt, "memory");
    let legal = Batch::new(CFGI_STE).expect(&rt, "no CMD_SYNC");
    let Ok((sender, first)) = sender.send(&ring, &legal, 1) else {
        panic!(rt; "the batch is refused");
    };
    let commands = [ILLEGAL, CFGI_STE];
    let batch = Batch::from_raws(commands.as_slice()).expect(&rt, "no CMD_SYNC");
    let Ok((mut sender, second)) = sender.send(&ring, &batch, 1) else {
        panic!(rt; "the batch is refused");
    };
    forward(&rt, &ring, &mut forwarder, Forwarded::Shown(2));
    forward(&rt, &ring, &mut forwarder, Forwarded::Replaced(ILLEGAL));
    forward(&rt, &ring, &mut forwarder, Forwarded::Shown(2));
    poll(&rt, &ring, &mut forwarder, Progress::Consumed(1));
    assert_eq!(rt; (forwarder.in_flight(), sender.done_up_to(&ring)), (4, 0));
    // The illegal one is settled with the CMD_SYNC ahead of it.
    poll(&rt, &ring, &mut forwarder, Progress::Consumed(1));
    assert_eq!(rt; (forwarder.in_flight(), sender.done_up_to(&ring)), (2, 1));
    assert_eq!(rt; forwarder.outcome(&first), BatchOutcome::Complete);
    assert_eq!(rt; forwarder.outcome(&second), BatchOutcome::NotYet);
    poll(&rt, &ring, &mut forwarder, Progress::Consumed(1));
    poll(&rt, &ring, &mut forwarder, Progress::Consumed(1));
    assert_eq!(rt; (forwarder.in_flight(), sender.done_up_to(&ring)), (0, 2));
    assert_eq!(rt; forwarder.outcome(&first), BatchOutcome::Complete);
    assert_eq!(rt; forwarder.outcome(&second), BatchOutcome::Lost(1));
    Ok(())
}

/// Sends so many batches of eight commands, each of which is shown at once.
fn show_many<R: Abort>(
    rt: &R,
    ring: &Ring,
    sender: Sender,
    forwarder: &mut Forwarder<UnitQueue>,
    batch: &Batch,
    count: u32,
) -> Sender
    requires sender { sender.ring ≡ ring.now }
    requires forwarder { forwarder.old.consumer.consumer.ring ≡ ring.now }
    ensures sender { result.ring ≡ ring.now }
    ensures forwarder { forwarder.new.consumer.consumer.ring ≡ ring.now }
{
    let mut sender = sender;
    for _ in 0..count {
        let Ok((again, _receipt)) = sender.send(ring, batch, 1) else {
            panic!(rt; "the batch is refused");
        };
        sender = again;
        forward(rt, ring, forwarder, Forwarded::Shown(8));
    }
    sender
}

/// Looks so often, and finds one more consumed each time.
fn consume_many<R: Abort>(rt: &R, ring: &Ring, forwarder: &mut Forwarder<UnitQueue>, count: u32)
    requires { forwarder.old.consumer.consumer.ring ≡ ring.now }
    ensures { forwarder.new.consumer.consumer.ring ≡ ring.now }
{
    for _ in 0..count {
        poll(rt, ring, forwarder, Progress::Consumed(1));
    }
}

#[test]
fn the_ring_laps_while_all_is_in_flight(rt: HostRuntime) -> Result<(), RingFault> {
    let (ring, mut senders, consumer) = Ring::new(rt.alloc(), 4, 1, 100)?;
    let sender = senders.pop().expect(&rt, "one sender");
    let made = Forwarder::new(rt.alloc(), consumer, owner(&rt, 8), 1);
    let mut forwarder = made.expect(&rt, "memory");
    let batch = Batch::from_raws(&[CFGI_STE; 7]).expect(&rt, "no CMD_SYNC");
    // 256 commands in flight, which went through a ring of 16 slots.
    let mut sender = show_many(&rt, &ring, sender, &mut forwarder, &batch, 32);
    assert_eq!(rt; (forwarder.in_flight(), sender.done_up_to(&ring)), (256, 0));
    forward(&rt, &ring, &mut forwarder, Forwarded::Full);
    consume_many(&rt, &ring, &mut forwarder, 255);
    assert_eq!(rt; (forwarder.in_flight(), sender.done_up_to(&ring)), (1, 31));
    consume_many(&rt, &ring, &mut forwarder, 1);
    assert_eq!(rt; (forwarder.in_flight(), sender.done_up_to(&ring)), (0, 32));
    Ok(())
}
