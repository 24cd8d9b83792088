//! Tests of `replay` for what no run of the program shows, readers, writers and allocations that fail, with the callers
//! that READMEs show, and scripts of 65,536 lines and more. tests/replay.cases has all others.
mod full_caches;
mod memory;
mod replay_caller;
mod simulator_caller;
mod streams;
mod transcripts;
