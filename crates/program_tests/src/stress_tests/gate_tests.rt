//! What a gate is told.
use ring::Receipt;
use std::sync::atomic::{AtomicBool, AtomicU32, Ordering};
use stress::{Gate, Plan, run_all};

/// The last of each three batches of a sender has no CMD_SYNC here.
const EVERY: u32 = 3;

/// Counts what it is told, and notes what is wrong.
#[derive(Drop)]
struct Listener {
    begun: AtomicU32,
    sent: AtomicU32,
    bare: AtomicU32,
    turns: AtomicU32,
    is_wrong: AtomicBool,
}

impl Listener {
    fn new() -> Listener {
        Listener {
            begun: AtomicU32::new(0),
            sent: AtomicU32::new(0),
            bare: AtomicU32::new(0),
            turns: AtomicU32::new(0),
            is_wrong: AtomicBool::new(false),
        }
    }

    fn expect(&self, is_so: bool) {
        if !is_so {
            self.is_wrong.store(true, Ordering::SeqCst);
        }
    }
}

impl Gate for Listener {
    fn before(&self, sender: u32, batch: u32) {
        self.expect(sender < 3 && 1 <= batch && batch <= 30);
        self.begun.fetch_add(1, Ordering::SeqCst);
    }

    fn after(&self, sender: u32, batch: u32, receipt: Option<&Receipt>) {
        match receipt {
            Some(receipt) => {
                self.expect(receipt.sender() == sender);
                self.expect(batch % EVERY != 0);
                self.expect(receipt.number() == batch.saturating_sub(batch / EVERY));
                self.sent.fetch_add(1, Ordering::SeqCst);
            }
            None => {
                self.expect(batch % EVERY == 0);
                self.bare.fetch_add(1, Ordering::SeqCst);
            }
        }
    }

    fn turn(&self, turn: u32) {
        let before = self.turns.fetch_add(1, Ordering::SeqCst);
        self.expect(turn.saturating_sub(1) == before);
    }
}

/// Each batch is begun once and sent once, the receipt of each names its own CMD_SYNC, and each turn of the engine is
/// told in its order. The ring has room for all 90 batches of at most 5 commands, so that no sender's turns run out,
/// however slow the engine's thread is.
#[test]
fn each_batch_and_each_turn_once(rt: HostRuntime) {
    let listener = Listener::new();
    let plan = Plan::with_bare(9, 3, 30, 1_000_000, EVERY).expect(&rt, "a plan");
    let report = run_all(&rt, &plan, &listener).expect(&rt, "a report");
    let is_wrong = listener.is_wrong.load(Ordering::SeqCst);
    assert!(rt; !is_wrong, "something was told that isn't so");
    let counted = (
        listener.begun.load(Ordering::SeqCst),
        listener.sent.load(Ordering::SeqCst),
        listener.bare.load(Ordering::SeqCst),
        listener.turns.load(Ordering::SeqCst),
        report.counts().syncs(),
    );
    assert_eq!(rt; counted, (90, 60, 30, 1_000_000, 60));
}
