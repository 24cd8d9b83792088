//! What whoever writes a queue's memory and registers is told.

/// Where commands that the hardware is shown go: each into a slot, and then SMMU_CMDQ_PROD is written.
#[derive(Clone, Copy, Debug, PartialEq, Eq)]
pub struct Placement {
    /// The slot of the first; the others go into those behind it, and behind the last slot of the queue into slot 0.
    pub slot: u32,
    /// How many they are.
    pub count: u32,
    /// The value for SMMU_CMDQ_PROD.
    pub prod: u32,
    /// The data for an MSI of the first, if that is a CMD_SYNC; for one behind it as many more, modulo 2^32.
    pub message: u32,
}
