//! The wrapped indexes of a command queue, and the control word that holds both of them.
//!
//! A command's position is how many were reserved before it, and never wraps. A register holds an index: the
//! position modulo twice the number of slots, which is the slot with the wrap bit above it. Two indexes tell
//! the queue between two positions if these are no further apart than the ring has slots ('circular queues').
#![tactic(auto)]

mod control;
mod geometry;
mod index;
mod laws;

pub use control::{Control, advance_mask, close_mask};
pub use geometry::Geometry;
pub use index::Index;
pub use laws::{
    control_words_say_their_control, indexes_tell_place_and_wrap_bit, indexes_tell_the_queue,
    or_closes, xor_advances_cons,
};
