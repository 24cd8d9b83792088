//! Commands with the level hint (TTL) that `cmdcodec::decode` and `encode` don't keep, for whoever forwards commands.
#![tactic(auto)]

mod decoding;
mod encoding;
mod laws;
mod reserved;
mod ttl;

pub use decoding::decode_with_hint;
pub use encoding::encode_with_hint;
pub use laws::reserved_bits_are_ignored;
pub use reserved::without_reserved_bits;
pub use ttl::{Ttl, has_ttl};
