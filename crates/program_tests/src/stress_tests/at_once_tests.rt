//! All workers run at the same time.
use ring::Receipt;
use std::sync::atomic::{AtomicBool, Ordering};
use stress::{Gate, Plan, run_all};

/// How often a flag is read before it counts as never set.
const LOOKS: u32 = 2_000_000_000;

/// The second batch of each of two senders waits, a bounded time, until the other has begun its second and the engine
/// its second turn; the engine's first turn waits for both senders.
#[derive(Drop)]
struct Meeting {
    first_sent: [AtomicBool; 2],
    begun: [AtomicBool; 2],
    engine: AtomicBool,
    missed: AtomicBool,
}

impl Meeting {
    fn new() -> Meeting {
        Meeting {
            first_sent: [AtomicBool::new(false), AtomicBool::new(false)],
            begun: [AtomicBool::new(false), AtomicBool::new(false)],
            engine: AtomicBool::new(false),
            missed: AtomicBool::new(false),
        }
    }

    fn set(&self, flags: &[AtomicBool; 2], sender: u32) {
        if sender < 2 {
            flags[sender as usize].store(true, Ordering::SeqCst);
        }
    }

    fn is_set(&self, flags: &[AtomicBool; 2], sender: u32) -> bool {
        sender < 2 && flags[sender as usize].load(Ordering::SeqCst)
    }

    fn await_flag(&self, flag: &AtomicBool) {
        for _ in 0..LOOKS {
            if flag.load(Ordering::SeqCst) {
                return;
            }
        }
        self.missed.store(true, Ordering::SeqCst);
    }
}

impl Gate for Meeting {
    fn before(&self, sender: u32, batch: u32) {
        if batch == 2 {
            // Only one that has the receipt of its first batch shows itself.
            if self.is_set(&self.first_sent, sender) {
                self.set(&self.begun, sender);
            }
            self.await_flag(&self.begun[0]);
            self.await_flag(&self.begun[1]);
            self.await_flag(&self.engine);
        }
    }

    fn after(&self, sender: u32, batch: u32, receipt: Option<&Receipt>) {
        if let Some(receipt) = receipt {
            if batch == 1 && receipt.sender() == sender && receipt.number() == 1 {
                self.set(&self.first_sent, sender);
            }
        }
    }

    fn turn(&self, turn: u32) {
        if turn == 1 {
            self.await_flag(&self.begun[0]);
            self.await_flag(&self.begun[1]);
        }
        if turn == 2 {
            self.engine.store(true, Ordering::SeqCst);
        }
    }
}

#[test]
fn senders_and_engine_at_the_same_time(rt: HostRuntime) {
    let meeting = Meeting::new();
    let plan = Plan::new(4, 2, 10, 100_000).expect(&rt, "a plan");
    let report = run_all(&rt, &plan, &meeting).expect(&rt, "a report");
    assert!(rt;
        !meeting.missed.load(Ordering::SeqCst),
        "a worker didn't see another"
    );
    assert_eq!(rt;
        (report.summary().reserved(), report.counts().syncs()),
        (72, 20)
    );
}
