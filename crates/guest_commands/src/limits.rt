//! What fits the host's SMMU.
ghost use Rattle.std.specs.Prelude.{◌≡◌, ◌<◌, ◌^◌, nat_lt};
ghost use Rattle.guest_commands.specs.Limits.{has_vmid, has_asid, has_stream, has_substream, has_substreams, has_descriptor};

use cmdcodec::{Asid, Sid, Ssid, Vmid};
use smmu_features::Smmu;

/// Whether a number has no more than so many bits.
#[tactic(auto, using(crate::proofs::LimitLemmas::wide_enough))]
fn fits(number: u32, bits: u32) -> bool
    ensures { result ≡ nat_lt number (2 ^ bits) }
{
    bits >= 32 || number < 1 << bits
}

pub(crate) fn has_vmid(smmu: &Smmu, vmid: Vmid) -> bool
    ensures { result ≡ has_vmid smmu.now vmid }
{
    fits(u32::from(vmid.get()), if smmu.wide_vmids { 16 } else { 8 })
}

pub(crate) fn has_asid(smmu: &Smmu, asid: Asid) -> bool
    ensures { result ≡ has_asid smmu.now asid }
{
    fits(u32::from(asid.get()), if smmu.wide_asids { 16 } else { 8 })
}

pub(crate) fn has_stream(smmu: &Smmu, sid: Sid) -> bool
    ensures { result ≡ has_stream smmu.now sid }
{
    fits(sid.get(), smmu.stream_bits)
}

pub(crate) fn has_substream(smmu: &Smmu, ssid: Ssid) -> bool
    ensures { result ≡ has_substream smmu.now ssid }
{
    fits(ssid.get(), smmu.substream_bits)
}

pub(crate) fn has_descriptor(smmu: &Smmu, ssid: Ssid) -> bool
    ensures { result ≡ has_descriptor smmu.now ssid }
{
    smmu.stage_1 && has_substream(smmu, ssid)
}

pub(crate) fn has_substreams(smmu: &Smmu) -> bool
    ensures { result ≡ has_substreams smmu.now }
{
    smmu.substream_bits > 0
}
