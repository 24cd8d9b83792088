//! What was read of the registers.

/// A register that was read, and its value. Only clauses see readings.
#[derive(Clone, Copy, Debug, PartialEq, Eq)]
pub enum Reading {
    /// SMMU_GERROR.
    Gerror(u32),
    /// SMMU_GERRORN.
    Gerrorn(u32),
    /// SMMU_CMDQ_CONS.
    Cons(u32),
}
