//! What takes commands off a ring.
ghost use Rattle.std.specs.Prelude.{◌≡◌};

use ring::Ring;
use std::hint::spin_loop;

/// The most commands that are taken at once.
pub(crate) const MOST_COMMANDS: u32 = 64;

/// How many hints to the processor a wait takes: 1.2 µs where one takes 4.6 ns.
const HINTS: u32 = 256;

/// When a taker looks again after it took fewer commands than it may.
#[derive(Clone, Copy)]
pub(crate) enum Pace {
    AtOnce,
    /// After a wait in which more may come, so that it takes the control word's line from the senders less often.
    Waiting,
}

impl Pace {
    /// Its name in a line of the results.
    pub(crate) fn name(self) -> &'static str {
        match self {
            Pace::AtOnce => "at_once",
            Pace::Waiting => "waiting",
        }
    }

    /// Waits, if it is to, after `count` commands were taken.
    pub(crate) fn let_more_come(self, count: u32) {
        if count == MOST_COMMANDS {
            return;
        }
        if let Pace::Waiting = self {
            for _ in 0..HINTS {
                spin_loop();
            }
        }
    }
}

/// A consumer, alone or with an engine.
pub(crate) trait Taker: Sized {
    ghost use Rattle.ring.specs.Rings.{RingValue};

    ghost ring_of: { Self → RingValue };

    /// Takes `wanted` commands, or until the ring is closed, and returns how many it took.
    fn take_all(self, ring: &Ring, wanted: u64, pace: Pace) -> u64
        requires { ring_of self ≡ ring.now };
}
