//! Readers and a writer for tests, which take small pieces and fail where told to, and tests of texts that end where
//! memory ran out. They carry no promise.
#![tactic(auto)]

mod pieces;
mod sink;
mod source;
mod telling;

pub use pieces::Pieces;
pub use sink::Sink;
pub use source::Source;
pub use telling::{answers_in, ends_without_memory};
