//! Tests of guest_commands, with words worked out by hand.
mod attaching;
mod batches;
mod configuring;
mod expecting;
mod guests_caller;
mod limits;
mod ranges;
mod small_world;
mod stops;
mod streams;
mod translations;
