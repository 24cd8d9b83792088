//! The events of a ring, which exist only in proofs, and the laws of every run of them.
mod event;
pub mod laws;

pub use event::{Event, Half, Outcome, Who};
