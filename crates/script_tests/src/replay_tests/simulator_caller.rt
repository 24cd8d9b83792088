//! The caller that simulator's README shows.
use batch::Batch;
use cmdcodec::Raw;
use simulator::{Shape, Simulator};

/// CMD_CFGI_STE of stream 5 with Leaf 1.
const CFGI_STE: Raw = Raw {
    lo: 0x0000_0005_0000_0003,
    hi: 1,
};

/// A ring of 8 slots, and caches of 4 entries.
const SHAPE: Shape = Shape {
    log2: 3,
    senders: 1,
    max_batches: 4,
    capacity: 4,
};

#[test]
fn a_batch_of_one_owner(rt: HostRuntime) {
    let mut simulator = Simulator::new(rt.alloc(), &SHAPE).expect(&rt, "memory");
    let batch = Batch::new(CFGI_STE).expect(&rt, "no CMD_SYNC");
    assert!(rt; simulator.has_sender(0) && !simulator.is_open(0));
    simulator.reserve(0, batch, true).expect(&rt, "room");
    assert_eq!(rt; simulator.publish(0), Some(1));
    // The command, and its CMD_SYNC.
    simulator.step();
    simulator.step();
    assert!(rt; simulator.has_sender(0));
    assert_eq!(rt; simulator.done_up_to(0), 1);
    assert_eq!(rt; simulator.counts().taken(), 2);
    // A witness that the run so far is a run of the ring: it does nothing.
    simulator.run_stands();
}

#[test]
fn a_batch_that_is_sent_at_once(rt: HostRuntime) {
    let mut simulator = Simulator::new(rt.alloc(), &SHAPE).expect(&rt, "memory");
    let batch = Batch::new(CFGI_STE).expect(&rt, "no CMD_SYNC");
    assert!(rt; simulator.has_sender(0) && !simulator.is_open(0));
    let sent = simulator.send(0, batch.as_borrowed(), true);
    assert_eq!(rt; sent, Ok(Some(1)));
}
