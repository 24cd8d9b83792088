//! How far the steps of a ring keep each other waiting, as facts of every run. No fairness and no time is assumed, and
//! nothing says that anybody takes a step.
//!
//! - `contention_law`: reserving is lock-free.
//! - `alone_law`: reserving is obstruction-free.
//! - `waiting_law`: taking isn't lock-free; the consumer waits for one sender, by name.
//! - `draining_law`: if no reservation is open, the consumer alone takes and acknowledges all.
//! - `finishing_law`: publishing is wait-free, and every run can be brought to an end.
#![tactic(auto)]

mod laws;

pub use laws::{alone_law, contention_law, draining_law, finishing_law, waiting_law};
