//! A sender that reserves and publishes nothing holds the head, and a take tells which one it is.
ghost use Rattle.std.specs.Prelude.{◌≡◌};
ghost use Rattle.ringcore.specs.world.Trails.{IsSettled};
ghost use Rattle.ring.specs.consumer.Taking.{TookUnwritten};
ghost use Rattle.ring_tests.specs.Holding.{FoundHeldBy};

use crate::batches::batch_of;
use crate::calls::{Seats, play, ring_of_two};
use crate::device::NoEntries;
use crate::reserving::{reserve, send_at_once};
use crate::thread_tests::find_unwritten;
use batch::Batch;
use progress::waiting_law;
use ring::{Closing, Consumer, Receipt, Ring, Sender, Taken, UnboundReservation};
use std::process::Abort;
use std::thread::{Threads, join};

/// Has a sender send a batch beside 1,000 turns of the consumer, each of which finds the head unwritten.
fn send_behind<R: Threads + Abort + Sync>(rt: &R, ring: &Ring, seats: Seats, batch: &Batch) -> Seats
    requires sender { seats.sender.ring ≡ ring.now }
    requires consumer { seats.consumer.ring ≡ ring.now }
    ensures sender { result.sender.ring ≡ ring.now }
    ensures id { result.sender.number ≡ seats.sender.number }
    ensures settled { IsSettled result.sender.trail }
    ensures consumer { result.consumer.ring ≡ ring.now }
{
    let Seats { sender, consumer } = seats;
    let ((sender, _receipt), (consumer, unwritten)) = join(
        rt,
        || -> (Sender, Receipt)
            requires { sender.ring ≡ ring.now }
            ensures ring { result.0.ring ≡ ring.entry.now }
            ensures id { result.0.number ≡ sender.number }
            ensures settled { IsSettled result.0.trail }
        { send_at_once(rt, ring, sender, batch) },
        || -> (Consumer<NoEntries>, bool)
            requires { consumer.ring ≡ ring.now }
            ensures { result.0.ring ≡ ring.entry.now }
        { find_unwritten(ring, consumer, 1_000) },
    );
    assert!(rt; unwritten);
    Seats { sender, consumer }
}

/// Takes, and expects the head to be unwritten.
fn expect_unwritten(
    rt: &impl Abort,
    ring: &Ring,
    consumer: Consumer<NoEntries>,
) -> Consumer<NoEntries>
    requires { consumer.ring ≡ ring.now }
    ensures { TookUnwritten 1 consumer result }
{
    match consumer.take(ring) {
        Taken::Unwritten(consumer) => consumer,
        Taken::Empty(_) | Taken::Drained(_) => panic!(rt; "nothing is reserved"),
        Taken::Ready(pending) => {
            pending.put_back();
            panic!(rt; "the head is handed over")
        }
    }
}

/// Takes between two meetings with sender 0, which has no open reservation, and expects the head to be unwritten.
/// Returns the number of the sender of the open one, which is the name that the take told.
fn holder_of_the_head(
    rt: &impl Abort,
    ring: &Ring,
    seats: Seats,
    held: &UnboundReservation<Closing>,
) -> (Seats, u32)
    requires two { ring.now.made_with.senders ≡ 2 }
    requires sender { seats.sender.ring ≡ ring.now }
    requires id { seats.sender.number ≡ 0 }
    requires settled { IsSettled seats.sender.trail }
    requires consumer { seats.consumer.ring ≡ ring.now }
    requires held { held.now.sender ≡ 1 }
    ensures sender { result.0.sender.ring ≡ ring.now }
    ensures consumer { result.0.consumer.ring ≡ ring.now }
    ensures told { FoundHeldBy result.1 seats.consumer result.0.consumer }
{
    let Seats {
        mut sender,
        mut consumer,
    } = seats;
    consumer.meet(ring, &mut sender);
    let mut consumer = expect_unwritten(rt, ring, consumer);
    consumer.trail_stands_in_a_run();
    waiting_law();
    consumer.meet(ring, &mut sender);
    (Seats { sender, consumer }, held.id())
}

#[test]
fn a_take_tells_who_holds_the_head(rt: HostRuntime) {
    let (ring, first, seats) = ring_of_two(&rt, 3, 4);
    let Seats { sender, consumer } = seats;
    let one = batch_of(&rt, 1);
    let held = reserve(&rt, &ring, sender, &one).unbind();
    let seats = Seats {
        sender: first,
        consumer,
    };
    let seats = send_behind(&rt, &ring, seats, &one);
    let (seats, holder) = holder_of_the_head(&rt, &ring, seats, &held);
    assert_eq!(rt; holder, 1);
    held.bind(&one).publish(&ring);
    play(
        &rt,
        &ring,
        seats,
        "consumer take = 0x700000003 0x1\n\
         consumer take = 0x100001046 0x40000004\n\
         consumer take = 0x700000003 0x1\n\
         consumer take = 0x100001046 0x40000000\n\
         consumer take = empty",
    );
}
