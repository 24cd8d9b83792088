//! What to show of a queue.
/// The registers of a queue, and what is shown of its memory.
#[derive(Clone, Copy, Debug, PartialEq, Eq)]
pub struct Asked {
    /// The binary logarithm of the queue's slots, SMMU_CMDQ_BASE.LOG2SIZE. It is 1 to 19, or bad. Where it is None, the
    /// length of the image says it.
    pub log2: Option<u32>,
    /// SMMU_CMDQ_PROD. None is no number of 32 bits, which is bad.
    pub prod: Option<u32>,
    /// SMMU_CMDQ_CONS, with ERR. None is no number of 32 bits, which is bad.
    pub cons: Option<u32>,
    /// Whether all slots are shown, and not only those that wait.
    pub all: bool,
    /// Whether what is read is the text of a hex dump (crate hex_dump), and not the memory itself.
    pub hex: bool,
    /// The error registers. If they are given, a last line says what holds the queue up.
    pub errors: Option<ErrorRegisters>,
}

/// The registers that say whether an error is active. Of both only CMDQ_ERR, bit 0, is looked at.
#[derive(Clone, Copy, Debug, PartialEq, Eq)]
pub struct ErrorRegisters {
    /// SMMU_GERROR. None is no number of 32 bits, which is bad.
    pub gerror: Option<u32>,
    /// SMMU_GERRORN. None is no number of 32 bits, which is bad.
    pub gerrorn: Option<u32>,
}
