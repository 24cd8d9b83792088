//! Texts of calls of a ring's sender and of its consumer, one a line, each with its answer after ` = `. Those of the
//! consumer begin with `consumer`.
ghost use Rattle.std.specs.Prelude.{◌≡◌};

use crate::consumer_calls::consumer_answer;
use crate::device::NoEntries;
use crate::sender_calls::sender_answer;
use ring::{Consumer, Ring, Sender};
use std::process::Abort;

/// A sender and the consumer of a ring.
#[derive(Drop)]
pub struct Seats {
    pub sender: Sender,
    pub consumer: Consumer<NoEntries>,
}

/// Makes a call and returns its answer.
fn answer<R: AllocGlobal + Abort>(
    rt: &R,
    ring: &Ring,
    seats: Seats,
    call: &str,
) -> (Seats, Option<String>)
    requires sender { seats.sender.ring ≡ ring.now }
    requires consumer { seats.consumer.ring ≡ ring.now }
    ensures sender { result.0.sender.ring ≡ ring.now }
    ensures id { result.0.sender.number ≡ seats.sender.number }
    ensures consumer { result.0.consumer.ring ≡ ring.now }
{
    let Seats { sender, consumer } = seats;
    match call.strip_prefix("consumer ") {
        Some(call) => {
            let (consumer, told) = consumer_answer(rt.alloc(), ring, consumer, call);
            (Seats { sender, consumer }, told)
        }
        None => {
            let (sender, told) = sender_answer(rt, rt.alloc(), ring, sender, call);
            (Seats { sender, consumer }, told)
        }
    }
}

/// Makes the call of a line, and expects the answer after it.
fn expect_answer<R: AllocGlobal + Abort>(rt: &R, ring: &Ring, seats: Seats, line: &str) -> Seats
    requires sender { seats.sender.ring ≡ ring.now }
    requires consumer { seats.consumer.ring ≡ ring.now }
    ensures sender { result.sender.ring ≡ ring.now }
    ensures id { result.sender.number ≡ seats.sender.number }
    ensures consumer { result.consumer.ring ≡ ring.now }
{
    let (call, wanted) = line.split_once(" = ").unwrap_or((line, ""));
    let (seats, told) = answer(rt, ring, seats, call);
    let told = told.expect(rt, line);
    assert_eq!(rt; told.as_str(), wanted, "{line}");
    seats
}

/// Makes the calls of a text, and expects the answer after each.
pub fn play<R: AllocGlobal + Abort>(rt: &R, ring: &Ring, seats: Seats, calls: &str) -> Seats
    requires sender { seats.sender.ring ≡ ring.now }
    requires consumer { seats.consumer.ring ≡ ring.now }
    ensures sender { result.sender.ring ≡ ring.now }
    ensures id { result.sender.number ≡ seats.sender.number }
    ensures consumer { result.consumer.ring ≡ ring.now }
{
    let mut seats = seats;
    for line in calls.lines() {
        seats = expect_answer(rt, ring, seats, line);
    }
    seats
}

/// A ring of one sender.
pub fn ring_of_one<R: AllocGlobal + Abort>(rt: &R, log2: u32, max_batches: u32) -> (Ring, Seats)
    ensures sender { result.1.sender.ring ≡ result.0 }
    ensures id { result.1.sender.number ≡ 0 }
    ensures consumer { result.1.consumer.ring ≡ result.0 }
    ensures one { result.0.made_with.senders ≡ 1 }
{
    let (ring, mut senders, consumer) = Ring::new::<NoEntries>(
        rt.alloc(),
        log2,
        1,
        max_batches,
    ).expect(rt, "a ring");
    let sender = senders.pop().expect(rt, "one sender");
    (ring, Seats { sender, consumer })
}

/// A ring of two senders, the second of which comes with the consumer.
pub fn ring_of_two<R: AllocGlobal + Abort>(
    rt: &R,
    log2: u32,
    max_batches: u32,
) -> (Ring, Sender, Seats)
    ensures first { result.1.ring ≡ result.0 }
    ensures first_id { result.1.number ≡ 0 }
    ensures sender { result.2.sender.ring ≡ result.0 }
    ensures id { result.2.sender.number ≡ 1 }
    ensures consumer { result.2.consumer.ring ≡ result.0 }
    ensures two { result.0.made_with.senders ≡ 2 }
{
    let (ring, mut senders, consumer) = Ring::new::<NoEntries>(
        rt.alloc(),
        log2,
        2,
        max_batches,
    ).expect(rt, "a ring");
    let sender = senders.pop().expect(rt, "two senders");
    let first = senders.pop().expect(rt, "two senders");
    assert_eq!(rt; (first.id(), sender.id()), (0, 1));
    (ring, first, Seats { sender, consumer })
}

/// Makes a ring of one sender and the calls of a text, and expects the answer after each.
pub fn expect_answers<R: AllocGlobal + Abort>(rt: &R, log2: u32, max_batches: u32, calls: &str) {
    let (ring, seats) = ring_of_one(rt, log2, max_batches);
    play(rt, &ring, seats, calls);
}
