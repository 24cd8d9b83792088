//! What a command line says of a guest.
ghost use Rattle.std.specs.Prelude.{◌≡◌};
ghost use Rattle.convert.specs.Guests.{smmu_of, substream_bits_of};

use smmu_features::{Granules, Smmu};

/// The bits of a SubstreamID where nothing is said of them, the most that an SMMU has (SMMU_IDR1.SSIDSIZE).
const MOST_SUBSTREAM_BITS: u32 = 20;

/// What a command line says of a guest and the host's SMMU: numbers as text, decimal without a
/// leading 0, or 0x and hexadecimal.
#[derive(Clone, Copy, Debug, PartialEq, Eq)]
pub struct Asked<'a> {
    /// The VMID that the guest has on the host.
    pub vmid: &'a str,
    /// Which streams of the host the guest's streams are: the guest's number, `=`, the host's number, and `,ats` where
    /// its endpoint caches translations.
    pub streams: &'a [&'a str],
    /// Whether the host's SMMU invalidates ranges of addresses (SMMU_IDR3.RIL).
    pub range_invalidation: bool,
    /// Whether it has PCIe ATS (SMMU_IDR0.ATS).
    pub ats: bool,
    /// Whether its ASIDs and VMIDs have 16 bits, and not 8 (SMMU_IDR0.ASID16 and VMID16).
    pub wide_ids: bool,
    /// The bits of its SubstreamIDs (SMMU_IDR1.SSIDSIZE), 20 if they are left out.
    pub substream_bits: Option<u32>,
}

impl<'a> Asked<'a> {
    /// Returns what the host's SMMU has: besides what is said both stages, EL2, page requests, each granule and streams
    /// of 32 bits.
    pub(crate) fn smmu(&self) -> Smmu
        ensures { result ≡ smmu_of self.now }
    {
        Smmu {
            range_invalidation: self.range_invalidation,
            stage_1: true,
            stage_2: true,
            ats: self.ats,
            pri: true,
            hypervisor: true,
            stalls: true,
            wide_asids: self.wide_ids,
            wide_vmids: self.wide_ids,
            substream_bits: substream_bits(self.substream_bits),
            stream_bits: 32,
            granules: Granules {
                kib4: true,
                kib16: true,
                kib64: true,
            },
        }
    }
}

fn substream_bits(given: Option<u32>) -> u32
    ensures { result ≡ substream_bits_of given }
{
    match given {
        Some(bits) => bits,
        None => MOST_SUBSTREAM_BITS,
    }
}
