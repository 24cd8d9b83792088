//! The limits of every ring (own).

/// The most senders that a ring may have.
pub const MOST_SENDERS: u32 = 256;

/// The most commands that are ever reserved in a ring: 256 senders make fewer than `2^32` batches each, of at
/// most 64.
pub const MOST_RESERVED: u64 = 1 << 46;

/// How many flags a flag word has.
pub(crate) const FLAGS: u32 = 64;
