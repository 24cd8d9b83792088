//! What a command line says of an invalidation, and the lines of its commands.
#![tactic(auto)]

mod asked;
mod fault;
mod lines;
mod range;
mod reading;

pub use asked::{Asked, Regime};
pub use fault::RangeFault;
pub use range::range_text;
pub use reading::commands;
