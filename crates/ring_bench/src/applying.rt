//! The engine's part.
ghost use Rattle.std.specs.Prelude.{◌≡◌};

use crate::taker::{MOST_COMMANDS, Pace, Taker};
use engine::{Engine, RunAnswer};
use ring::Ring;

impl Taker for Engine {
    ghost ring_of = { λ e. e.consumer.ring };

    fn take_all(self, ring: &Ring, wanted: u64, pace: Pace) -> u64 {
        let mut engine = self;
        let mut taken: u64 = 0;
        for _ in 0..u64::MAX {
            if taken >= wanted {
                return taken;
            }
            match engine.step_run(ring, MOST_COMMANDS) {
                RunAnswer::Applied { count, removed: _ } => {
                    taken = taken.saturating_add(u64::from(count));
                    pace.let_more_come(count);
                }
                RunAnswer::Drained => return taken,
                _ => {}
            }
        }
        taken
    }
}
