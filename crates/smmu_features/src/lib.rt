//! What an SMMU has, as its ID registers say.
#![tactic(auto)]

mod judging;
mod registers;
mod smmu;

pub use smmu::{Granules, Smmu};
