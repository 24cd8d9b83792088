//! The limits of a batch (own).

/// The most commands in a batch's body.
pub const MOST_BODY_COMMANDS: usize = 63;

/// The most commands in a batch: its body and the CMD_SYNC that closes it.
pub const MOST_BATCH_COMMANDS: usize = 64;

/// The most batches that a sender may make.
pub const MOST_BATCHES: u32 = u32::MAX;
