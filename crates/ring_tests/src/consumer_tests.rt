//! Worked rows of the consumer, by calls: laps, a stalled sender, a close, a command that is put back, and a run that
//! is completed in a later call.
ghost use Rattle.std.specs.Prelude.{◌≡◌};

use crate::batches::{CFGI_STE, batch_of};
use crate::calls::{Seats, expect_answers, play, ring_of_one, ring_of_two};
use crate::device::NoEntries;
use crate::reserving::{reserve, send_at_once};
use crate::steps::finish;
use ring::{Found, Outcome, PendingConsumer, Ring, Uncompleted};
use std::alloc::AllocError;
use std::process::Abort;

/// What the consumer, and the sender's completion cell, must answer once the batch of this number was sent.
fn calls_of_lap<R: AllocGlobal + Abort>(rt: &R, number: u32) -> String {
    format!(in rt.alloc();
        "consumer take = 0x700000003 0x1\n\
         consumer take = {number:#x}00001046 0x40000000\n\
         done = {number}"
    )
    .expect(rt, "memory")
}

/// Sends a batch and takes its two commands: the sender is told that the CMD_SYNC completed, but not before.
fn lap<R: AllocGlobal + Abort>(rt: &R, ring: &Ring, seats: Seats, number: u32) -> Seats
    requires sender { seats.sender.ring ≡ ring.now }
    requires consumer { seats.consumer.ring ≡ ring.now }
    ensures sender { result.sender.ring ≡ ring.now }
    ensures id { result.sender.number ≡ seats.sender.number }
    ensures consumer { result.consumer.ring ≡ ring.now }
{
    let Seats { sender, consumer } = seats;
    let (mut sender, receipt) = send_at_once(rt, ring, sender, &batch_of(rt, 1));
    assert!(rt; !sender.is_done(ring, &receipt));
    let calls = calls_of_lap(rt, number);
    let mut seats = play(rt, ring, Seats { sender, consumer }, calls.as_str());
    assert!(rt; seats.sender.is_done(ring, &receipt));
    seats
}

#[test]
fn five_laps_of_two_slots(rt: HostRuntime) -> Result<(), AllocError> {
    let (ring, seats) = ring_of_one(&rt, 1, 8);
    let seats = lap(&rt, &ring, seats, 1);
    let seats = lap(&rt, &ring, seats, 2);
    let seats = lap(&rt, &ring, seats, 3);
    let seats = lap(&rt, &ring, seats, 4);
    let seats = lap(&rt, &ring, seats, 5);
    let Seats { sender, consumer } = play(&rt, &ring, seats, "consumer taken = 10");
    let end = finish(ring, Vec::new(rt.alloc()), sender, consumer)?;
    assert_eq!(rt;
        (end.reserved(), end.taken(), end.closed()),
        (10, 10, false)
    );
    Ok(())
}

/// Makes calls of sender 1 and the consumer while sender 0 has a batch reserved, and further ones once it is published.
fn expect_around_a_publish<R: AllocGlobal + Abort>(rt: &R, ahead: &str, behind: &str) {
    let (ring, first, seats) = ring_of_two(rt, 3, 4);
    let one = batch_of(rt, 1);
    let reservation = reserve(rt, &ring, first, &one);
    let seats = play(rt, &ring, seats, ahead);
    let (_first, _receipt) = reservation.publish(&ring);
    play(rt, &ring, seats, behind);
}

#[test]
fn a_stalled_sender(rt: HostRuntime) {
    expect_around_a_publish(
        &rt,
        "send 1 = number 1\nconsumer take = unwritten",
        "consumer take = 0x700000003 0x1\n\
         consumer take = 0x100001046 0x40000000\n\
         consumer take = 0x700000003 0x1\n\
         consumer take = 0x100001046 0x40000004\n\
         consumer take = empty",
    );
}

#[test]
fn a_close_while_a_reservation_is_open(rt: HostRuntime) {
    expect_around_a_publish(
        &rt,
        "close = closed\nsend 1 = Q1\nconsumer take = unwritten",
        "consumer take = 0x700000003 0x1\n\
         consumer take = 0x100001046 0x40000000\n\
         consumer take = drained\n\
         consumer register = 2",
    );
}

#[test]
fn a_command_that_is_put_back_comes_again(rt: HostRuntime) {
    expect_answers(
        &rt,
        2,
        4,
        "send 2 = number 1\n\
         consumer put back = 0x700000003 0x1\n\
         consumer take = 0x700000003 0x1\n\
         consumer taken = 1",
    );
}

#[test]
fn a_run_that_is_completed_in_a_later_call(rt: HostRuntime) {
    let (ring, Seats { sender, consumer }) = ring_of_one(&rt, 3, 4);
    let (_sender, _receipt) = send_at_once(&rt, &ring, sender, &batch_of(&rt, 1));
    let mut pending = PendingConsumer::new(consumer);
    assert_eq!(rt; pending.take_run(&ring, 64), Found::Ready);
    assert_eq!(rt; (pending.len(), pending.get(0)), (2, Some(CFGI_STE)));
    let completed = pending.complete(&ring, 3, &NoEntries);
    assert_eq!(rt; completed, Err(Uncompleted::Count));
    let completed = pending.complete(&ring, 2, &NoEntries);
    assert_eq!(rt; completed, Ok(Outcome::Applied));
    assert_eq!(rt; pending.into_consumer().taken(), 2);
}
