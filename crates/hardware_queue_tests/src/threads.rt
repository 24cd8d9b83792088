//! Two senders and a forwarder, each on a thread of its own, with a slow unit behind a queue of two slots.
ghost use Rattle.std.specs.Prelude.{◌≡◌, ◌≤◌};

use crate::words::{CFGI_STE, UNSUPPORTED, owner};
use batch::Batch;
use hardware_queue::{Forwarder, Progress, Remedy};
use ring::{Ring, RingFault, Sender};
use std::thread::{Threads, join};
use unit_queue::UnitQueue;

/// Sends up to `count` batches, with 50 tries each, and returns how many were sent.
fn send_many(ring: &Ring, sender: Sender, batch: &Batch, count: u32) -> (Sender, u32)
    requires { sender.ring ≡ ring.now }
    ensures ring { result.0.ring ≡ ring.now }
    ensures most { result.1 ≤ count }
{
    let mut sender = sender;
    for sent in 0..count {
        match sender.send(ring, batch, 50) {
            Ok((again, _receipt)) => sender = again,
            Err(refused) => return (refused.sender, sent),
        }
    }
    (sender, count)
}

/// Forwards and looks so often, and replaces each command at which the hardware stops.
fn forward_many(ring: &Ring, forwarder: Forwarder<UnitQueue>, turns: u32) -> Forwarder<UnitQueue>
    requires { forwarder.consumer.consumer.ring ≡ ring.now }
    ensures { result.consumer.consumer.ring ≡ ring.now }
{
    let mut forwarder = forwarder;
    for _ in 0..turns {
        let _forwarded = forwarder.forward(ring);
        if let Progress::Stopped { .. } = forwarder.poll(ring) {
            let _stopped = forwarder.acknowledge(Remedy::Replace);
        }
    }
    forwarder
}

/// Sends what is left of so many batches, each after calls that make room.
fn send_rest(
    ring: &Ring,
    sender: Sender,
    forwarder: Forwarder<UnitQueue>,
    batch: &Batch,
    left: u32,
) -> (Sender, Forwarder<UnitQueue>)
    requires sender { sender.ring ≡ ring.now }
    requires forwarder { forwarder.consumer.consumer.ring ≡ ring.now }
    ensures sender { result.0.ring ≡ ring.now }
    ensures forwarder { result.1.consumer.consumer.ring ≡ ring.now }
{
    let (mut sender, mut forwarder) = (sender, forwarder);
    for _ in 0..left {
        forwarder = forward_many(ring, forwarder, 60);
        let (again, _sent) = send_many(ring, sender, batch, 1);
        sender = again;
    }
    (sender, forward_many(ring, forwarder, 60))
}

#[test]
fn two_senders_and_a_slow_unit(rt: HostRuntime) -> Result<(), RingFault> {
    let (ring, mut senders, consumer) = Ring::new(rt.alloc(), 3, 2, 100)?;
    let second = senders.pop().expect(&rt, "two senders");
    let first = senders.pop().expect(&rt, "two senders");
    let made = Forwarder::new(rt.alloc(), consumer, owner(&rt, 1), 2);
    let forwarder = made.expect(&rt, "memory");
    let legal = Batch::from_raws(&[CFGI_STE; 2]).expect(&rt, "no CMD_SYNC");
    let stopping = Batch::from_raws(&[CFGI_STE, UNSUPPORTED]).expect(&rt, "no CMD_SYNC");
    let (((first, sent), (second, sent_too)), forwarder) = join(
        &rt,
        || -> ((Sender, u32), (Sender, u32))
            requires { (first.ring ≡ ring) × (second.ring ≡ ring) }
            ensures { (result.0.0.ring ≡ ring) × (result.0.1 ≤ 40) × (result.1.0.ring ≡ ring) × (result.1.1 ≤ 40) }
        {
            join(
                &rt,
                || -> (Sender, u32)
                    requires { first.ring ≡ ring }
                    ensures { (result.0.ring ≡ ring) × (result.1 ≤ 40) }
                { send_many(&ring, first, &legal, 40) },
                || -> (Sender, u32)
                    requires { second.ring ≡ ring }
                    ensures { (result.0.ring ≡ ring) × (result.1 ≤ 40) }
                { send_many(&ring, second, &stopping, 40) },
            )
        },
        || -> Forwarder<UnitQueue>
            requires { forwarder.consumer.consumer.ring ≡ ring }
            ensures { result.consumer.consumer.ring ≡ ring }
        { forward_many(&ring, forwarder, 2_000) },
    );
    // The rest on one thread.
    let (mut first, forwarder) = send_rest(&ring, first, forwarder, &legal, 40 - sent);
    let (mut second, forwarder) = send_rest(&ring, second, forwarder, &stopping, 40 - sent_too);
    assert_eq!(rt;
        (first.done_up_to(&ring), second.done_up_to(&ring)),
        (40, 40)
    );
    assert_eq!(rt; forwarder.lost(), 40);
    Ok(())
}
