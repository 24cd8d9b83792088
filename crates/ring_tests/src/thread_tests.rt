//! Senders and a consumer, each on its own thread.
ghost use Rattle.std.specs.Prelude.{◌≡◌, ◌≤◌};

use crate::batches::batch_of;
use crate::calls::{Seats, play, ring_of_one, ring_of_two};
use crate::device::NoEntries;
use crate::reserving::{expect_refused, reserve};
use crate::sender_calls::send;
use crate::steps::{Head, finish, take_one};
use batch::Batch;
use ring::{Cause, Consumer, Ring, Sender};
use std::alloc::AllocError;
use std::process::Abort;
use std::thread::{Threads, join};

/// Sends four batches, with 100 tries each, and returns whether all were sent.
fn send_four(ring: &Ring, sender: Sender, batch: &Batch) -> (Sender, bool)
    requires { sender.ring ≡ ring.now }
    ensures { result.0.ring ≡ ring.now }
{
    let mut sender = sender;
    let mut all_sent = true;
    for _ in 0..4 {
        sender = match sender.send(ring, batch, 100) {
            Ok((sender, _receipt)) => sender,
            Err(refused) => {
                all_sent = false;
                refused.sender
            }
        };
    }
    (sender, all_sent)
}

/// Has two senders send four batches each at the same time, and returns whether all were sent.
fn send_at_a_time(
    rt: &impl Threads,
    ring: &Ring,
    senders: (Sender, Sender),
    batch: &Batch,
) -> ((Sender, bool), (Sender, bool))
    requires first { senders.0.ring ≡ ring.now }
    requires second { senders.1.ring ≡ ring.now }
    ensures first { result.0.0.ring ≡ ring.now }
    ensures second { result.1.0.ring ≡ ring.now }
{
    let (first, second) = senders;
    join(
        rt,
        || -> (Sender, bool)
            requires { first.ring ≡ ring.now }
            ensures { result.0.ring ≡ ring.entry.now }
        { send_four(ring, first, batch) },
        || -> (Sender, bool)
            requires { second.ring ≡ ring.now }
            ensures { result.0.ring ≡ ring.entry.now }
        { send_four(ring, second, batch) },
    )
}

/// Expects all of these batches to be sent.
fn expect_eight<R: Threads + Abort>(
    rt: &R,
    ring: &Ring,
    senders: (Sender, Sender),
    batch: &Batch,
) -> (Sender, Sender)
    requires first { senders.0.ring ≡ ring.now }
    requires second { senders.1.ring ≡ ring.now }
    ensures first { result.0.ring ≡ ring.now }
    ensures second { result.1.ring ≡ ring.now }
{
    let ((first, four), (second, four_more)) = send_at_a_time(rt, ring, senders, batch);
    assert_eq!(rt; (four, four_more), (true, true));
    (first, second)
}

// A sender's exchange is lost at most four times, once for each batch of the other.
#[test]
fn two_senders_at_a_time(rt: HostRuntime) {
    let (ring, first, seats) = ring_of_two(&rt, 4, 8);
    let Seats { sender, consumer } = seats;
    let one = batch_of(&rt, 1);
    let (first, second) = expect_eight(&rt, &ring, (first, sender), &one);
    let seats = Seats {
        sender: first,
        consumer,
    };
    play(&rt, &ring, seats, "look = 16 0 open");
    expect_refused(&rt, &ring, second, &one, Cause::Full);
}

/// Tries so often to send a batch. Returns how many tries sent it, and how many lost their exchange.
fn try_many(ring: &Ring, sender: Sender, batch: &Batch, tries: u32) -> (u32, u32)
    requires { sender.ring ≡ ring.now }
{
    let mut sender = sender;
    let (mut sent, mut lost) = (0u32, 0u32);
    for _ in 0..tries {
        let (again, answer) = send(ring, sender, batch);
        sender = again;
        match answer {
            Ok(_) => sent = sent.saturating_add(1),
            Err(Cause::Contended) => lost = lost.saturating_add(1),
            Err(_) => {}
        }
    }
    (sent, lost)
}

/// Has two senders try at the same time, 1,000 times each.
fn try_at_a_time(
    rt: &impl Threads,
    ring: &Ring,
    first: Sender,
    second: Sender,
    batch: &Batch,
) -> ((u32, u32), (u32, u32))
    requires first { first.ring ≡ ring.now }
    requires second { second.ring ≡ ring.now }
{
    join(
        rt,
        || -> (u32, u32)
            requires { first.ring ≡ ring.now }
        { try_many(ring, first, batch, 1_000) },
        || -> (u32, u32)
            requires { second.ring ≡ ring.now }
        { try_many(ring, second, batch, 1_000) },
    )
}

// Nothing is taken, so all lost exchanges are at most senders times (reserved commands, and one).
#[test]
fn lost_exchanges_are_paid_for(rt: HostRuntime) {
    let (ring, first, seats) = ring_of_two(&rt, 12, 1_000);
    let Seats { sender, consumer } = seats;
    let one = batch_of(&rt, 1);
    let ((sent, lost), (sent_too, lost_too)) = try_at_a_time(&rt, &ring, first, sender, &one);
    let batches = sent.saturating_add(sent_too);
    let lost = lost.saturating_add(lost_too);
    assert_eq!(rt; batches.saturating_add(lost), 2_000);
    let reserved = batches.saturating_mul(2);
    assert!(rt; lost <= reserved.saturating_add(1).saturating_mul(2));
    assert_eq!(rt; consumer.taken(), 0);
}

/// Sends up to `count` batches, with 50 tries each, and returns how many were sent.
fn send_many(ring: &Ring, sender: Sender, batch: &Batch, count: u32) -> (Sender, u32)
    requires { sender.ring ≡ ring.now }
    ensures ring { result.0.ring ≡ ring.now }
    ensures id { result.0.number ≡ sender.number }
    ensures most { result.1 ≤ count }
{
    let mut sender = sender;
    for sent in 0..count {
        match sender.send(ring, batch, 50) {
            Ok((again, _receipt)) => sender = again,
            Err(refused) => return (refused.sender, sent),
        }
    }
    (sender, count)
}

/// Takes a command, if there is one, in each of `turns` turns.
fn take_many(ring: &Ring, consumer: Consumer<NoEntries>, turns: u32) -> Consumer<NoEntries>
    requires { consumer.ring ≡ ring.now }
    ensures { result.ring ≡ ring.now }
{
    let mut consumer = consumer;
    for _ in 0..turns {
        let (again, _head) = take_one(ring, consumer);
        consumer = again;
    }
    consumer
}

/// Has a sender send up to 1,000 batches beside 1,000 turns of the consumer, and returns how many were sent.
fn at_a_time(rt: &impl Threads, ring: &Ring, seats: Seats, batch: &Batch) -> (Seats, u32)
    requires sender { seats.sender.ring ≡ ring.now }
    requires consumer { seats.consumer.ring ≡ ring.now }
    ensures sender { result.0.sender.ring ≡ ring.now }
    ensures id { result.0.sender.number ≡ seats.sender.number }
    ensures consumer { result.0.consumer.ring ≡ ring.now }
    ensures most { result.1 ≤ 1000 }
{
    let Seats { sender, consumer } = seats;
    let ((sender, sent), consumer) = join(
        rt,
        || -> (Sender, u32)
            requires { sender.ring ≡ ring.now }
            ensures { (result.0.ring ≡ ring.entry.now) × (result.0.number ≡ sender.number) × (result.1 ≤ 1000) }
        { send_many(ring, sender, batch, 1_000) },
        || -> Consumer<NoEntries>
            requires { consumer.ring ≡ ring.now }
            ensures { result.ring ≡ ring.entry.now }
        { take_many(ring, consumer, 1_000) },
    );
    (Seats { sender, consumer }, sent)
}

/// Takes two commands in each of 2,000 turns, and sends a batch in each as long as some are left.
fn the_rest(ring: &Ring, seats: Seats, batch: &Batch, left: u32) -> Seats
    requires sender { seats.sender.ring ≡ ring.now }
    requires consumer { seats.consumer.ring ≡ ring.now }
    ensures sender { result.sender.ring ≡ ring.now }
    ensures id { result.sender.number ≡ seats.sender.number }
    ensures consumer { result.consumer.ring ≡ ring.now }
{
    let mut left = left;
    let Seats {
        mut sender,
        mut consumer,
    } = seats;
    for _ in 0..2_000 {
        consumer = take_many(ring, consumer, 2);
        if left > 0 {
            let (again, sent) = send_many(ring, sender, batch, 1);
            sender = again;
            left -= sent;
        }
    }
    Seats { sender, consumer }
}

#[test]
fn a_sender_beside_the_consumer(rt: HostRuntime) -> Result<(), AllocError> {
    let (ring, seats) = ring_of_one(&rt, 2, 1_000);
    let one = batch_of(&rt, 1);
    let (seats, sent) = at_a_time(&rt, &ring, seats, &one);
    // On one thread: two commands for each batch.
    let Seats { sender, consumer } = the_rest(&ring, seats, &one, 1_000 - sent);
    let end = finish(ring, Vec::new(rt.alloc()), sender, consumer)?;
    assert_eq!(rt;
        (end.reserved(), end.taken(), end.closed()),
        (2_000, 2_000, false)
    );
    Ok(())
}

/// Closes the ring and then sends a batch. Returns its number, or why it is refused.
fn close_and_send(ring: &Ring, sender: Sender, batch: &Batch) -> (Sender, Result<u32, Cause>)
    requires { sender.ring ≡ ring.now }
    ensures { result.0.ring ≡ ring.now }
{
    let mut sender = sender;
    sender.close(ring);
    send(ring, sender, batch)
}

/// Takes a command, if there is one, in each of `turns` turns, and returns whether each turn found the head unwritten.
pub fn find_unwritten(
    ring: &Ring,
    consumer: Consumer<NoEntries>,
    turns: u32,
) -> (Consumer<NoEntries>, bool)
    requires { consumer.ring ≡ ring.now }
    ensures { result.0.ring ≡ ring.now }
{
    let mut consumer = consumer;
    let mut unwritten = true;
    for _ in 0..turns {
        let (again, head) = take_one(ring, consumer);
        consumer = again;
        unwritten = unwritten && head == Head::Unwritten;
    }
    (consumer, unwritten)
}

/// Has a sender close the ring and send a batch beside 1,000 turns of the consumer.
fn close_beside_the_consumer(
    rt: &impl Threads,
    ring: &Ring,
    seats: Seats,
    batch: &Batch,
) -> ((Sender, Result<u32, Cause>), (Consumer<NoEntries>, bool))
    requires sender { seats.sender.ring ≡ ring.now }
    requires consumer { seats.consumer.ring ≡ ring.now }
    ensures sender { result.0.0.ring ≡ ring.now }
    ensures consumer { result.1.0.ring ≡ ring.now }
{
    let Seats { sender, consumer } = seats;
    join(
        rt,
        || -> (Sender, Result<u32, Cause>)
            requires { sender.ring ≡ ring.now }
            ensures { result.0.ring ≡ ring.entry.now }
        { close_and_send(ring, sender, batch) },
        || -> (Consumer<NoEntries>, bool)
            requires { consumer.ring ≡ ring.now }
            ensures { result.0.ring ≡ ring.entry.now }
        { find_unwritten(ring, consumer, 1_000) },
    )
}

/// Expects the batch to be refused, and each turn to find the head unwritten.
fn expect_closed<R: Threads + Abort>(
    rt: &R,
    ring: &Ring,
    seats: Seats,
    batch: &Batch,
) -> Consumer<NoEntries>
    requires sender { seats.sender.ring ≡ ring.now }
    requires consumer { seats.consumer.ring ≡ ring.now }
    ensures { result.ring ≡ ring.now }
{
    let ((_sender, sent), (consumer, unwritten)) = close_beside_the_consumer(
        rt, ring, seats, batch,
    );
    assert_eq!(rt; (sent, unwritten), (Err(Cause::Closed), true));
    consumer
}

#[test]
fn a_close_on_another_thread_while_a_reservation_is_open(rt: HostRuntime) {
    let (ring, first, seats) = ring_of_two(&rt, 3, 4);
    let one = batch_of(&rt, 1);
    let reservation = reserve(&rt, &ring, first, &one);
    let consumer = expect_closed(&rt, &ring, seats, &one);
    let (sender, _receipt) = reservation.publish(&ring);
    play(
        &rt,
        &ring,
        Seats { sender, consumer },
        "send 1 = Q1\n\
         consumer take = 0x700000003 0x1\n\
         consumer take = 0x100001046 0x40000000\n\
         consumer take = drained\n\
         done = 1\n\
         look = 2 2 closed",
    );
}
