//! What the owner of a queue finds.
use crate::command_error::CommandError;

/// What a look at SMMU_GERROR and SMMU_CMDQ_CONS found.
#[derive(Clone, Copy, Debug, PartialEq, Eq)]
pub enum Progress {
    /// So many more commands were consumed.
    Consumed(u32),
    /// So many more were consumed, and at the next one the hardware stopped with this error.
    Stopped { consumed: u32, error: CommandError },
    /// SMMU_CMDQ_CONS has this value, which no working queue has: RD is behind what was consumed, ahead of what was shown,
    /// or no index.
    Broken(u32),
}
