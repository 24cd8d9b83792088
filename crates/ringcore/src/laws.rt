//! Laws of every run, from each layer. Each is the contract of a function that does nothing.
pub use crate::machine::laws::{consumer_view, sender_view, steps_law, sync_tallies};
pub use crate::memory::laws::{
    acknowledge, advance, apart, ask, begin, close, flip, look, read, ready_runs, reserve_lost,
    reserve_won, sender_trail, start, stored_back, test, write,
};
pub use crate::world::laws::{batches_law, consumer_trail, counts_law, newest_event, world_law};
