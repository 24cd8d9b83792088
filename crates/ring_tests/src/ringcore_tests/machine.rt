//! The machine with one owner, step by step, with answers worked out by hand.
mod calls;
mod laps;
mod memory;
mod overlapping;
mod playing;
mod runs;
mod steps;
