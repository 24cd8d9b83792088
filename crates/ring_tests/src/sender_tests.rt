//! What no clause says of the senders: the names of faults and causes, and that calls succeed.
ghost use Rattle.std.specs.Prelude.{◌≡◌};

use crate::batches::{CFGI_STE, batch_of};
use crate::calls::{Seats, expect_answers, play, ring_of_one, ring_of_two};
use crate::device::NoEntries;
use crate::reserving::{expect_receipt, expect_refused, expect_slots, reserve, reserve_bare};
use crate::sender_calls::send;
use batch::{Batch, BorrowedBatch};
use ring::{Cause, Closing, Ring, RingFault, Sender};
use std::alloc::{AllocError, Global};
use std::fmt::Display;
use std::process::Abort;

fn expect_name<R: AllocGlobal + Abort, T: Display>(rt: &R, named: &T, wanted: &str) {
    let told = named.to_string(rt.alloc()).expect(rt, "memory");
    assert_eq!(rt; told.as_str(), wanted);
}

#[test]
fn faults_of_a_new_ring_have_names(rt: HostRuntime) {
    expect_name(
        &rt,
        &RingFault::Size,
        "N1: the ring isn't of 2 to 524,288 slots",
    );
    expect_name(&rt, &RingFault::Senders, "N2: the senders aren't 1 to 256");
    expect_name(
        &rt,
        &RingFault::Batches,
        "N3: a sender may reserve no batch",
    );
    expect_name(&rt, &RingFault::Memory(AllocError), "N4: out of memory");
}

#[test]
fn causes_have_names(rt: HostRuntime) {
    expect_name(&rt, &Cause::Closed, "Q1: the ring is closed");
    expect_name(&rt, &Cause::Full, "Q2: the ring has too little room");
    expect_name(&rt, &Cause::Contended, "Q3: another changed the ring first");
    expect_name(
        &rt,
        &Cause::TooLong,
        "Q4: the batch is longer than the ring",
    );
    expect_name(&rt, &Cause::Exhausted, "Q5: the sender has no batch left");
}

#[test]
fn as_many_batches_as_it_may(rt: HostRuntime) {
    expect_answers(
        &rt,
        3,
        2,
        "send 1 = number 1\n\
         send 1 = number 2\n\
         send 1 = Q5\n\
         send 8 = Q4",
    );
}

/// Sends borrowed commands with a closing CMD_SYNC, and returns its number.
fn send_borrowed(
    rt: &impl Abort,
    ring: &Ring,
    sender: Sender,
    batch: BorrowedBatch<'_>,
) -> (Sender, u32)
    requires { sender.ring ≡ ring.now }
    ensures { result.0.ring ≡ ring.now }
{
    match sender.send_borrowed(ring, batch, 1) {
        Ok((sender, receipt)) => (sender, receipt.number()),
        Err(_) => panic!(rt; "the batch is refused"),
    }
}

fn send_borrowed_bare(
    rt: &impl Abort,
    ring: &Ring,
    sender: Sender,
    batch: BorrowedBatch<'_>,
) -> Sender
    requires { sender.ring ≡ ring.now }
    ensures { result.ring ≡ ring.now }
{
    match sender.send_borrowed_bare(ring, batch, 1) {
        Ok(sender) => sender,
        Err(_) => panic!(rt; "the batch is refused"),
    }
}

#[test]
fn commands_are_sent_from_where_they_stand(rt: HostRuntime) {
    let (ring, Seats { sender, .. }) = ring_of_one(&rt, 3, 2);
    let commands = [CFGI_STE; 2];
    let batch = BorrowedBatch::new(&commands).expect(&rt, "no CMD_SYNC");
    let (sender, number) = send_borrowed(&rt, &ring, sender, batch.reborrow());
    let mut sender = send_borrowed_bare(&rt, &ring, sender, batch);
    assert_eq!(rt; (number, sender.look(&ring).prod.get()), (1, 5));
}

#[test]
fn batches_left_with_a_bare_one(rt: HostRuntime) {
    expect_answers(
        &rt,
        3,
        2,
        "left = 2\n\
         bare 1 = sent\n\
         left = 1\n\
         send 1 = number 1\n\
         left = 0\n\
         send 1 = Q5\n\
         bare 1 = Q5\n\
         left = 0",
    );
}

#[test]
fn a_closed_ring_is_told_ahead_of_a_full_one(rt: HostRuntime) {
    expect_answers(
        &rt,
        1,
        8,
        "send 1 = number 1\n\
         send 1 = Q2\n\
         close = closed\n\
         send 1 = Q1\n\
         look = 2 0 closed",
    );
}

#[test]
fn a_reservation_step_by_step(rt: HostRuntime) {
    let (ring, seats) = ring_of_one(&rt, 2, 8);
    let Seats { sender, consumer } = seats;
    let two = batch_of(&rt, 2);
    let mut reservation = reserve(&rt, &ring, sender, &two);
    expect_slots(&rt, &reservation, 3, 0);
    reservation.write_next(&ring);
    expect_slots(&rt, &reservation, 2, 1);
    reservation.flip_next(&ring);
    expect_slots(&rt, &reservation, 2, 0);
    let (sender, receipt) = reservation.publish(&ring);
    expect_receipt(&rt, &receipt, 0, 1);
    play(
        &rt,
        &ring,
        Seats { sender, consumer },
        "done = 0\nlook = 3 0 open",
    );
}

#[test]
fn bare_batches_have_no_number(rt: HostRuntime) {
    let (ring, seats) = ring_of_one(&rt, 3, 8);
    let Seats { sender, consumer } = play(&rt, &ring, seats, "bare 1 = sent\nsend 1 = number 1");
    let one = batch_of(&rt, 1);
    let mut reservation = reserve_bare(&rt, &ring, sender, &one);
    expect_slots(&rt, &reservation, 1, 0);
    reservation.write_next(&ring);
    expect_slots(&rt, &reservation, 0, 1);
    reservation.flip_next(&ring);
    let sender = reservation.publish(&ring);
    play(
        &rt,
        &ring,
        Seats { sender, consumer },
        "send 1 = number 2\nlook = 6 0 open",
    );
}

#[test]
fn a_ring_of_two_slots(rt: HostRuntime) {
    let (ring, first, seats) = ring_of_two(&rt, 1, 4);
    let Seats {
        sender: second,
        consumer,
    } = seats;
    let seats = Seats {
        sender: first,
        consumer,
    };
    let seats = play(&rt, &ring, seats, "bare 1 = sent");
    expect_refused(&rt, &ring, second, &batch_of(&rt, 1), Cause::Full);
    play(&rt, &ring, seats, "bare 3 = Q4");
}

/// Sends a batch so many times, and returns how the last one went.
fn send_times(
    ring: &Ring,
    sender: Sender,
    batch: &Batch,
    times: u32,
) -> (Sender, Result<u32, Cause>)
    requires { sender.ring ≡ ring.now }
    ensures ring { result.0.ring ≡ ring.now }
{
    let mut sender = sender;
    let mut last = Err(Cause::Exhausted);
    for _ in 0..times {
        let (again, told) = send(ring, sender, batch);
        sender = again;
        last = told;
    }
    (sender, last)
}

/// The largest ring: the last of its 256 senders, and the consumer.
fn largest_ring<R: AllocGlobal + Abort>(rt: &R) -> (Ring, Seats)
    ensures sender { result.1.sender.ring ≡ result.0 }
    ensures consumer { result.1.consumer.ring ≡ result.0 }
{
    let (ring, mut senders, consumer) = Ring::new::<NoEntries>(
        rt.alloc(),
        19,
        256,
        4_294_967_295,
    ).expect(rt, "a ring");
    let count = senders.len();
    let sender = senders.pop().expect(rt, "256 senders");
    assert_eq!(rt; (count, sender.id()), (256, 255));
    (ring, Seats { sender, consumer })
}

// 2^13 batches of 63 commands and a CMD_SYNC fill 2^19 slots.
#[test]
fn the_last_of_256_senders_fills_the_largest_ring(rt: HostRuntime) {
    let (ring, seats) = largest_ring(&rt);
    let Seats { sender, consumer } = seats;
    let (sender, last) = send_times(&ring, sender, &batch_of(&rt, 63), 8192);
    assert_eq!(rt; last, Ok(8192));
    play(
        &rt,
        &ring,
        Seats { sender, consumer },
        "look = 524288 0 open\n\
         bare 1 = Q2\n\
         consumer take 64 64 = 64 64\n\
         done = 1\n\
         bare 1 = sent\n\
         look = 524289 64 open",
    );
}

#[test]
fn a_batch_over_the_end_of_a_flag_word(rt: HostRuntime) {
    expect_answers(
        &rt,
        7,
        8,
        "bare 32 = sent\n\
         send 63 = number 1\n\
         look = 96 0 open",
    );
}

/// Sends a first batch, and returns how it went.
fn outcome_of_send(rt: &impl Abort, ring: &Ring, sender: Sender) -> &'static str
    requires { sender.ring ≡ ring.now }
{
    match send(ring, sender, &batch_of(rt, 1)) {
        (_, Ok(1)) => "whole",
        _ => "wrong",
    }
}

/// Makes a ring and sends a batch, and returns how it went.
fn outcome(rt: &impl Abort, alloc: Global) -> &'static str {
    match Ring::new::<NoEntries>(alloc, 2, 3, 1) {
        Ok((ring, mut senders, _consumer)) => {
            let last = senders.pop().expect(rt, "three senders");
            outcome_of_send(rt, &ring, last)
        }
        Err(RingFault::Memory(_)) => "refused",
        Err(_) => "wrong",
    }
}

// Nothing but the ring allocates here, so that each of its allocations can be made to fail.
#[test]
fn every_allocation_of_a_ring(rt: HostRuntime) {
    let outcome = outcome(&rt, rt.alloc());
    assert_ne!(rt; outcome, "wrong");
    println!(rt; "every_allocation_of_a_ring: {outcome}").expect(&rt, "the line is printed");
}

#[test]
fn a_reservation_within_two_tries(rt: HostRuntime) {
    let (ring, seats) = ring_of_one(&rt, 3, 4);
    let batch = batch_of(&rt, 1);
    let sender = seats.sender;
    let Ok(reservation) = sender.reserve_within::<Closing>(&ring, batch.as_borrowed(), 2) else {
        panic!(rt; "the batch is refused");
    };
    let (_sender, receipt) = reservation.publish(&ring);
    expect_receipt(&rt, &receipt, 0, 1);
}
