//! The ring as events on an abstract world: what holds for every interleaving of its atomic steps, what each
//! step does to the words of a ring, and what its seats know.
//!
//! 1. `world`: a run is a list of events, each an atomic step of a sender or of the consumer with what it
//!    found. A definition says which event may follow which, and a law says that every run is ordered delivery.
//! 2. `memory`: the words of a ring are the shadow of a world. Each event is one operation on one word, and a
//!    law for each kind says that it turns the shadow before into the shadow after.
//! 3. `machine`: steps as requested, by slots. `Core` plays them with one owner, and names the fault of each
//!    that isn't allowed.
//!
//! No code of a running ring is here: the crate ring takes its steps on shared words, each by one of these laws.
#![tactic(auto)]

pub mod laws;
mod limits;
mod machine;
mod memory;
mod ring_fault;
mod world;

pub use laws::{batches_law, counts_law, steps_law, world_law};
pub use limits::{MOST_RESERVED, MOST_SENDERS};
pub use machine::{
    ConsumerView, Core, Seen, SenderView, Step, StepFault, SyncTallies, batch_commands, index_of,
    run,
};
pub use memory::{
    RingWords, cell, control_word, data_word, flag_word, flip_mask, new_flags, polarity, ready_run,
    shared_word, words,
};
pub use ring_fault::{RingFault, ring_geometry};
pub use world::{Event, Half, Outcome, Who};

/// Why a machine isn't made. N3 never applies.
pub type CoreFault = RingFault;
