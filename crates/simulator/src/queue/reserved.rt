//! What a reserved batch tells.
use qindex::Index;

/// What was reserved.
#[derive(Clone, Copy, Debug, PartialEq, Eq)]
pub struct Reserved {
    /// The index of the first slot.
    pub first: Index,
    /// The batch's number, if it closes with a CMD_SYNC.
    pub number: Option<u32>,
}
