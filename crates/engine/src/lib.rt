//! The engine: a unit that applies commands to its caches and stops at an illegal one, alone and with the
//! consumer of a ring.
//!
//! 1. The consumer reads commands from the head on; they stay in the ring.
//! 2. The unit judges each: a legal one removes what it covers from the caches; at an illegal one the unit stops, until
//!    software acknowledges the error and chooses what happens to the command ('command queue errors').
//! 3. The consumer advances past what was applied and acknowledges each CMD_SYNC in it. That call requires the unit to
//!    be settled: no entry is older than a taken command that covers it. So the caches have changed before any sender
//!    is told.
//!
//! An entry is as old as its fill: how many commands were taken before it. `Engine::told` shows while the
//! ring runs, and `Engine::finish` at its end, that a sender that was told finds no older entry.
#![tactic(auto)]

mod answer;
mod completion;
mod counts;
mod engine;
mod finished;
mod global_errors;
mod queue_unit;
mod remedy;
mod stop;
mod unit;
mod verdict;

pub use answer::{Registers, RunAnswer, StepAnswer};
pub use completion::{Completion, completion_of, tell_completions};
pub use counts::Counts;
pub use engine::{Engine, step_with};
pub use finished::Finished;
pub use queue_unit::{JudgeFault, QueueError, QueueUnit, StopRemedy};
pub use remedy::{AckFault, Remedy};
pub use unit::Unit;
pub use verdict::{Judgement, Verdict};
