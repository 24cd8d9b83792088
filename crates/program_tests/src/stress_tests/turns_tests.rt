//! What a gate is told if the turns run out, and of the engine's first and last turn.
use ring::Receipt;
use std::sync::atomic::{AtomicBool, AtomicU32, Ordering};
use std::thread::Threads;
use stress::{Gate, Plan, run_all};

/// How often something is read before it counts as never so.
const LOOKS: u32 = 2_000_000_000;

/// Waits a bounded time, and returns whether the number was reached.
fn comes_to_be(number: &AtomicU32, wanted: u32) -> bool {
    for _ in 0..LOOKS {
        if number.load(Ordering::SeqCst) >= wanted {
            return true;
        }
    }
    false
}

/// What the workers of at most two senders told on the way.
#[derive(Drop)]
struct Told {
    /// The newest batch that each sender began.
    begun: [AtomicU32; 2],
    sent: AtomicU32,
    given_up: AtomicU32,
    /// How often a batch was sent or given up.
    ended: AtomicU32,
    is_wrong: AtomicBool,
}

impl Told {
    fn new() -> Told {
        Told {
            begun: [AtomicU32::new(0), AtomicU32::new(0)],
            sent: AtomicU32::new(0),
            given_up: AtomicU32::new(0),
            ended: AtomicU32::new(0),
            is_wrong: AtomicBool::new(false),
        }
    }

    fn expect(&self, is_so: bool) {
        if !is_so {
            self.is_wrong.store(true, Ordering::SeqCst);
        }
    }

    /// The batches of a sender are begun one after another.
    fn begin(&self, sender: u32, batch: u32) {
        self.expect(sender < 2);
        if sender < 2 {
            let before = self.begun[sender as usize].fetch_add(1, Ordering::SeqCst);
            self.expect(batch.saturating_sub(1) == before);
        }
    }

    /// What is sent or given up is the newest batch that was begun.
    fn end(&self, sender: u32, batch: u32, receipt: Option<&Receipt>) {
        self.expect(sender < 2);
        if sender < 2 {
            self.expect(self.begun[sender as usize].load(Ordering::SeqCst) == batch);
        }
        match receipt {
            Some(receipt) => {
                self.expect(receipt.sender() == sender && receipt.number() == batch);
                self.sent.fetch_add(1, Ordering::SeqCst);
            }
            None => {
                self.given_up.fetch_add(1, Ordering::SeqCst);
            }
        }
        self.ended.fetch_add(1, Ordering::SeqCst);
    }

    /// How many batches were begun, how many were sent, and how many were given up.
    fn numbers(&self) -> (u32, u32, u32) {
        let first = self.begun[0].load(Ordering::SeqCst);
        let second = self.begun[1].load(Ordering::SeqCst);
        (
            first.saturating_add(second),
            self.sent.load(Ordering::SeqCst),
            self.given_up.load(Ordering::SeqCst),
        )
    }
}

/// Two senders on a ring that one batch fills. Nothing is taken until the engine's first turn, which waits for both
/// workers to use up their turns: so one batch is sent, and each other try is refused.
#[derive(Drop)]
struct FullRing {
    told: Told,
    /// How often a batch is sent or given up before both have no turn left.
    ends: u32,
}

impl Gate for FullRing {
    fn before(&self, sender: u32, batch: u32) {
        self.told.begin(sender, batch);
    }

    fn after(&self, sender: u32, batch: u32, receipt: Option<&Receipt>) {
        self.told.end(sender, batch, receipt);
    }

    fn turn(&self, turn: u32) {
        if turn == 1 {
            // One that has sent its batch begins another, if it has a turn left, and gives that up.
            let told = &self.told;
            told.expect(comes_to_be(&told.ended, self.ends));
            told.expect(told.sent.load(Ordering::SeqCst) == 1);
        }
    }
}

/// Returns what two workers tell with `turns` turns each while nothing is taken, or None if something was wrong.
fn told_at_a_full_ring<R: Threads + AllocGlobal + Sync>(
    rt: &R,
    turns: u32,
    ends: u32,
) -> Option<(u32, u32, u32)> {
    let gate = FullRing {
        told: Told::new(),
        ends,
    };
    let plan = Plan::new(1, 2, 3, turns)?;
    let Ok(report) = run_all(rt, &plan, &gate) else {
        return None;
    };
    if gate.told.is_wrong.load(Ordering::SeqCst) || report.counts().syncs() != 6 {
        return None;
    }
    Some(gate.told.numbers())
}

/// Both begin their first batch. The one that sends it has no turn left, and begins no other; the other gives it up.
#[test]
fn one_turn_each(rt: HostRuntime) {
    assert_eq!(rt; told_at_a_full_ring(&rt, 1, 2), Some((2, 1, 1)));
}

/// The one that sends its first batch begins its second, and each gives up the one that it has begun, once.
#[test]
fn turns_that_run_out(rt: HostRuntime) {
    assert_eq!(rt; told_at_a_full_ring(&rt, 2, 3), Some((3, 1, 2)));
    assert_eq!(rt; told_at_a_full_ring(&rt, 1000, 3), Some((3, 1, 2)));
}

/// How many turns the engine has here.
const TURNS: u32 = 3_000_000;

/// One sender on a ring that one batch fills. Its first batch waits for the engine's last turn, which waits for that
/// batch to be sent.
#[derive(Drop)]
struct LastTurn {
    told: Told,
    turns: AtomicU32,
}

impl Gate for LastTurn {
    fn before(&self, sender: u32, batch: u32) {
        self.told.begin(sender, batch);
        if batch == 1 {
            self.told.expect(comes_to_be(&self.turns, TURNS));
        }
    }

    fn after(&self, sender: u32, batch: u32, receipt: Option<&Receipt>) {
        self.told.end(sender, batch, receipt);
    }

    fn turn(&self, turn: u32) {
        self.turns.store(turn, Ordering::SeqCst);
        if turn == TURNS {
            self.told.expect(comes_to_be(&self.told.sent, 1));
        }
    }
}

/// A turn is told before it is taken: what was sent before the last one was told is taken in it, and there is room for
/// one more batch.
#[test]
fn the_last_turn_is_told_ahead_of_it(rt: HostRuntime) {
    let gate = LastTurn {
        told: Told::new(),
        turns: AtomicU32::new(0),
    };
    let plan = Plan::new(1, 1, 3, TURNS).expect(&rt, "a plan");
    let report = run_all(&rt, &plan, &gate).expect(&rt, "a report");
    let is_wrong = gate.told.is_wrong.load(Ordering::SeqCst);
    assert!(rt; !is_wrong, "something was told that isn't so");
    let syncs = report.counts().syncs();
    assert_eq!(rt; (gate.told.numbers(), syncs), ((3, 2, 1), 3));
}
