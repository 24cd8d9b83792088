//! The command queue and its unit with one owner, on the ring that ships: each call is a whole line's worth of steps.
#![tactic(auto)]

mod queue;
mod shape;
mod simulator;

pub use queue::Reserved;
pub use shape::{Shape, ShapeFault};
pub use simulator::Simulator;
