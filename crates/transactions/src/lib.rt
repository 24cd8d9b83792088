//! What a device model serves beside its command queue: translation table walks, and transactions
//! that were translated with an entry.
//!
//! 1. A walk begins, reads the tables, and what it read is filled. It is refused if a command that
//!    covers it was taken meanwhile.
//! 2. A transaction begins with an entry that is held, and ends. A CMD_SYNC isn't taken while one
//!    is outstanding whose entry a command before that CMD_SYNC covers.
//! 3. A walk may be outstanding as well, until it reads tables no more. Each invalidation since it
//!    began concerns it, and a CMD_SYNC behind that waits for it.
//!
//! `TrackedUnit` does that for a ring, and `TrackedQueueUnit` for a queue in memory that its owner
//! may write over.
#![tactic(auto)]

mod completion_witness;
mod coverage;
mod outstanding;
mod recent_invalidations;
mod tracked;
mod tracked_judgement;
mod tracked_queue_unit;
mod tracked_run;
mod tracked_step;
mod tracked_verdict;
mod tracking;
mod transaction;
mod used;
mod walk;

pub use completion_witness::told;
pub use tracked::TrackedUnit;
pub use tracked_judgement::TrackedJudgement;
pub use tracked_queue_unit::TrackedQueueUnit;
pub use tracked_run::{TrackedRun, step_run_with};
pub use tracked_step::{TrackedStep, step_with};
pub use tracked_verdict::TrackedVerdict;
pub use transaction::{BeginFault, Ended, OutstandingCounts, Transaction};
pub use walk::{Walk, WalkFault};
