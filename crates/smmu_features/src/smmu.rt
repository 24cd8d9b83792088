//! What an SMMU has.
ghost use Rattle.std.specs.Prelude.{◌≡◌, ◌<◌, ◌≤◌};
ghost use Rattle.smmu_features.specs.IdRegisters.{smmu_of, granules_of};

use crate::registers::{field, is_set};

/// The translation granules of an SMMU (SMMU_IDR5).
#[derive(Clone, Copy, Debug, PartialEq, Eq)]
pub struct Granules {
    /// GRAN4K: 4 KiB.
    pub kib4: bool,
    /// GRAN16K: 16 KiB.
    pub kib16: bool,
    /// GRAN64K: 64 KiB.
    pub kib64: bool,
}

/// What an SMMU has, as its ID registers say.
#[derive(Clone, Copy, Debug, PartialEq, Eq)]
pub struct Smmu {
    /// SMMU_IDR3.RIL: invalidation of ranges of addresses, and level hints.
    pub range_invalidation: bool,
    /// SMMU_IDR0.S1P: stage 1 translation.
    pub stage_1: bool,
    /// SMMU_IDR0.S2P: stage 2 translation.
    pub stage_2: bool,
    /// SMMU_IDR0.ATS: PCIe ATS.
    pub ats: bool,
    /// SMMU_IDR0.PRI: page requests of PCIe endpoints.
    pub pri: bool,
    /// SMMU_IDR0.Hyp: stage 1 contexts of a hypervisor (EL2).
    pub hypervisor: bool,
    /// SMMU_IDR0.STALL_MODEL isn't 1: a faulting transaction may be stalled until software says what becomes of it.
    pub stalls: bool,
    /// SMMU_IDR0.ASID16: ASIDs of 16 bits, and not 8.
    pub wide_asids: bool,
    /// SMMU_IDR0.VMID16: VMIDs of 16 bits, and not 8.
    pub wide_vmids: bool,
    /// SMMU_IDR1.SSIDSIZE: the bits of a SubstreamID, 0 for none.
    pub substream_bits: u32,
    /// SMMU_IDR1.SIDSIZE: the bits of a StreamID.
    pub stream_bits: u32,
    /// SMMU_IDR5.GRAN4K, GRAN16K and GRAN64K.
    pub granules: Granules,
}

impl Smmu {
    /// Returns what SMMU_IDR0, SMMU_IDR1, SMMU_IDR3 and SMMU_IDR5 say. Their other fields are ignored, and no
    /// value is refused: both sizes are as they stand there, 0 to 31 and 0 to 63.
    pub fn from_registers(idr0: u32, idr1: u32, idr3: u32, idr5: u32) -> Smmu
        ensures { result ≡ smmu_of idr0 idr1 idr3 idr5 }
    {
        Smmu {
            range_invalidation: is_set(idr3, 10),
            stage_1: is_set(idr0, 1),
            stage_2: is_set(idr0, 0),
            ats: is_set(idr0, 10),
            pri: is_set(idr0, 16),
            hypervisor: is_set(idr0, 9),
            stalls: field(idr0, 25, 24) != 1,
            wide_asids: is_set(idr0, 12),
            wide_vmids: is_set(idr0, 18),
            substream_bits: field(idr1, 10, 6),
            stream_bits: field(idr1, 5, 0),
            granules: Granules::from_register(idr5),
        }
    }
}

impl Granules {
    fn from_register(idr5: u32) -> Granules
        ensures { result ≡ granules_of idr5 }
    {
        Granules {
            kib4: is_set(idr5, 4),
            kib16: is_set(idr5, 5),
            kib64: is_set(idr5, 6),
        }
    }
}
