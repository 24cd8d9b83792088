//! Registers that somebody else read.

/// Two registers, as whoever reads them for a queue found them: first SMMU_GERROR was read, and then SMMU_CMDQ_CONS.
#[derive(Clone, Copy, Debug, PartialEq, Eq)]
pub struct RegisterWords {
    /// SMMU_GERROR.
    pub gerror: u32,
    /// SMMU_CMDQ_CONS.
    pub cons: u32,
}
