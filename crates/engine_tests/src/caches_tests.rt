//! Tests of caches. Most are texts of calls and their answers (`calls`), since a text costs the prover little.
mod caches_caller;
mod calls;
mod capacity;
mod clearing;
mod coverage;
mod covered;
mod evicting;
mod finding;
mod listing;
mod memory;
mod notation;
mod parting;
mod reaching;
mod runs;
mod sparing;
mod worked;
