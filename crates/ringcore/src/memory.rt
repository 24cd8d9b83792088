//! The words of a ring: where each is, what its flags say, and what the single operation of each kind of step
//! does.
mod flags;
pub mod laws;
mod layout;
mod ring_words;

pub use flags::{flip_mask, new_flags, polarity, ready_run, shared_word};
pub use layout::{cell, control_word, data_word, flag_word, words};
pub use ring_words::RingWords;
