//! How a queue begins again.

/// The values for SMMU_CMDQ_PROD and SMMU_CMDQ_CONS with which a queue is enabled again.
#[derive(Clone, Copy, Debug, PartialEq, Eq)]
pub struct Restart {
    pub prod: u32,
    pub cons: u32,
}
