//! How a driver has its invalidations made.

/// How a driver has its invalidations made.
#[derive(Clone, Copy, Debug, PartialEq, Eq)]
pub struct Policy {
    /// The most commands by address. Where more are needed, the whole space is invalidated.
    pub most_commands: u64,
    /// Whether some page may be global (nG 0). The commands for an address space by ASID spare such a page, so
    /// that those of its VMID, or of EL2, are invalidated in their place.
    pub global_pages: bool,
}
