//! What a driver means by an invalidation, and the commands for it: by ranges where the SMMU has them, or one for each
//! leaf; or where that would be many, one for the whole space.
#![tactic(auto)]

mod by_address;
mod commands;
mod endpoint;
mod entries;
mod fault;
mod filling;
mod gather;
mod interval;
mod invalidation;
mod laws;
mod pieces;
mod policy;
mod request;
mod rounding;
mod space;
mod words;

pub use commands::Commands;
pub use endpoint::{Endpoint, Substreams};
pub use entries::{Entries, Level};
pub use fault::InvalidationFault;
pub use filling::Body;
pub use gather::Gather;
pub use interval::MOST_INTERVALS;
pub use invalidation::{ByteRange, Bytes, Invalidation};
pub use laws::{
    batches_are_clean_in_any_order, gathered_bytes_are_covered, invalidations_cover_their_ranges,
    invalidations_reach_their_bytes, served_words_are_legal, whole_spaces_are_covered,
};
pub use policy::Policy;
pub use space::Space;
