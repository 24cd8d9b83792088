//! Shows a queue's memory as the SMMU would see it by its registers.
#![tactic(auto)]

mod answered;
mod asked;
mod dump;
mod error;
mod fault;
mod hint;
mod known;
mod laws;
mod lines;
mod queue;
mod reading;
mod request;
mod showing;
mod state;
mod streams;
mod viewing;

pub use asked::{Asked, ErrorRegisters};
pub use hint::{Hint, Width};
pub use laws::slots_wait_by_position;
pub use viewing::{image, image_with_hint};
