//! What is asked for.

/// Whose translations are invalidated.
#[derive(Clone, Copy, Debug, PartialEq, Eq)]
pub enum Regime {
    /// Those of a virtual machine at stage 1.
    Stage1,
    /// Those of the hypervisor (EL2).
    Hypervisor,
    /// Those of a virtual machine at stage 2.
    Stage2,
}

/// What a command line says of an invalidation: numbers as text, decimal or 0x and hexadecimal.
#[derive(Clone, Copy, Debug, PartialEq, Eq)]
pub struct Asked<'a> {
    pub regime: Regime,
    /// The VMID, 16 bits. The hypervisor needs none.
    pub vmid: Option<&'a str>,
    /// The ASID, 16 bits, or every one if it is left out. Stage 2 has none.
    pub asid: Option<&'a str>,
    /// The address of the first byte.
    pub address: &'a str,
    /// How many bytes there are.
    pub length: &'a str,
    /// The granule of the translation tables, `4K`, `16K` or `64K`; 4K if it is left out.
    pub granule: Option<&'a str>,
    /// Whether only last-level entries changed.
    pub leaf: bool,
    /// The level of these entries, 1 to 3, if it is known.
    pub level: Option<u32>,
    /// Whether the SMMU has range invalidation (SMMU_IDR3.RIL).
    pub range_invalidation: bool,
    /// The most commands by address, or 512 if it is left out.
    pub most_commands: Option<u32>,
}
