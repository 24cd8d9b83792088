//! The engine of a running ring whose unit tracks walks and transactions.
//!
//! 1. A step takes at most one command, as an engine's does. A CMD_SYNC stays in the ring while a
//!    transaction is outstanding that began with an entry which a command before it covers.
//! 2. Walks and transactions begin and end between two steps.
//! 3. `TrackedEngine::told` shows while the ring runs, and `TrackedEngine::finish` at its end, that
//!    a sender that was told finds no older entry, and no transaction that began with one.
#![tactic(auto)]

mod finished;
mod tracked_engine;

pub use finished::TrackedFinished;
pub use tracked_engine::TrackedEngine;
