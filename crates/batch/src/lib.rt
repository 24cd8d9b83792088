//! The body of a batch: the commands that a driver collects before it reserves room for them in the
//! queue. No call takes memory.
#![tactic(auto)]

mod body;
mod borrowed;
mod buffer;
mod copying;
mod detach;
mod fault;
mod laws;
mod range;

pub use body::Batch;
pub use borrowed::BorrowedBatch;
pub use buffer::BatchBuffer;
pub use fault::BatchFault;
pub use laws::ranges_are_reached_exactly;
