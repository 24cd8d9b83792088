//! What became of a batch.

/// What became of the commands of a batch that closes with a CMD_SYNC.
#[derive(Clone, Copy, Debug, PartialEq, Eq)]
pub enum BatchOutcome {
    /// All were carried out.
    Complete,
    /// So many weren't, at least one; `2^32 - 1` if more.
    Lost(u32),
    /// Its CMD_SYNC isn't settled yet.
    NotYet,
    /// It is settled, and more isn't known any more, since a later batch of the same sender lost commands.
    Unknown,
}
