//! What C gets of a guest: its streams, and what its commands were converted to.

/// A stream of a guest that is this one of the host.
#[repr(C)]
#[derive(Clone, Copy)]
pub struct StreamWords {
    /// The guest's.
    pub sid: u32,
    pub host: u32,
    /// 1 if its endpoint caches translations.
    pub ats: u32,
}

/// What a guest's commands were converted to.
#[repr(C)]
#[derive(Clone, Copy)]
pub struct Converted {
    /// How many of the guest's commands were taken.
    pub taken: u32,
    /// How many commands of the host they are.
    pub made: u32,
    /// Why no more were taken: 0 if all were, 1 if the host's for the next one don't fit, 2 at a CMD_SYNC, 3 at a
    /// CMD_CFGI_STE or CMD_CFGI_STE_RANGE, 4 at an illegal command, 5 at one that the guest doesn't have.
    pub ended: u32,
    /// The label of the illegal command, 1 to 4, or 0.
    pub ill: u32,
}
