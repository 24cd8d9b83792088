//! The invalidation that a command line means.
ghost use Rattle.std.specs.Prelude.{◌≡◌};
ghost use Rattle.ranges.specs.Meanings.{asid_of, bytes_of, entries_of, granule_named, granule_of, id_of, invalidation_of, level_of, plan_asked, policy_of, smmu_of, space_of};

use crate::asked::{Asked, Regime};
use crate::fault::RangeFault;
use cmdcodec::{Asid, Granule, Vmid};
use invalidations::{ByteRange, Bytes, Commands, Entries, Invalidation, Level, Policy, Space};
use script::number;
use smmu_features::Smmu;

/// The most commands by address where nothing is said of them, as in Linux's driver.
const USUAL_LIMIT: u64 = 512;

/// SMMU_IDR0: S2P, S1P and Hyp.
const STAGES: u32 = 0x203;

/// SMMU_IDR3: RIL.
const RIL: u32 = 0x400;

/// SMMU_IDR5: GRAN4K, GRAN16K and GRAN64K.
const GRANULES: u32 = 0x70;

fn vmid(text: Option<&str>) -> Option<Vmid>
    ensures { result ≡ id_of text.entry }
{
    match text {
        Some(text) => Vmid::new(number(text.as_bytes())?),
        None => None,
    }
}

/// Returns the ASID, or `Some(None)` where there is none, or `None` if the text is none.
fn asid(text: Option<&str>) -> Option<Option<Asid>>
    ensures { result ≡ asid_of text.entry }
{
    match text {
        Some(text) => Some(Some(Asid::new(number(text.as_bytes())?)?)),
        None => Some(None),
    }
}

fn space(asked: &Asked<'_>) -> Result<Space, RangeFault>
    ensures { result ≡ space_of asked.now }
{
    match (asked.regime, vmid(asked.vmid), asid(asked.asid)) {
        (Regime::Stage1 | Regime::Stage2, None, _) => Err(RangeFault::BadVmid),
        (Regime::Stage1, Some(_), None) | (Regime::Hypervisor, _, None) => {
            Err(RangeFault::BadAsid)
        }
        (Regime::Stage1, Some(vmid), Some(asid)) => Ok(Space::Stage1 { vmid, asid }),
        (Regime::Hypervisor, _, Some(asid)) => Ok(Space::Hypervisor { asid }),
        (Regime::Stage2, Some(vmid), _) => Ok(Space::Stage2 { vmid }),
    }
}

fn bytes(asked: &Asked<'_>) -> Result<ByteRange, RangeFault>
    ensures { result ≡ bytes_of asked.now }
{
    let Some(first) = number(asked.address.as_bytes()) else {
        return Err(RangeFault::BadAddress);
    };
    match number(asked.length.as_bytes()) {
        Some(length) => Ok(ByteRange { first, length }),
        None => Err(RangeFault::BadLength),
    }
}

fn granule_named(text: &str) -> Option<Granule>
    ensures { result ≡ granule_named text.now }
{
    match text {
        "4K" => Some(Granule::Kib4),
        "16K" => Some(Granule::Kib16),
        "64K" => Some(Granule::Kib64),
        _ => None,
    }
}

fn granule(text: Option<&str>) -> Option<Granule>
    ensures { result ≡ granule_of text.entry }
{
    match text {
        Some(text) => granule_named(text),
        None => Some(Granule::Kib4),
    }
}

fn level(level: Option<u32>) -> Option<Level>
    ensures { result ≡ level_of level }
{
    match level {
        Some(1) => Some(Level::One),
        Some(2) => Some(Level::Two),
        Some(_) => Some(Level::Three),
        None => None,
    }
}

fn entries(asked: &Asked<'_>) -> Entries
    ensures { result ≡ entries_of asked.now }
{
    if asked.leaf {
        Entries::Leaves {
            level: level(asked.level),
        }
    } else {
        Entries::Any
    }
}

fn invalidation(asked: &Asked<'_>) -> Result<Invalidation, RangeFault>
    ensures { result ≡ invalidation_of asked.now }
{
    let space = space(asked)?;
    let bytes = bytes(asked)?;
    match granule(asked.granule) {
        Some(granule) => Ok(Invalidation {
            space,
            bytes: Bytes::Range(bytes),
            granule,
            entries: entries(asked),
        }),
        None => Err(RangeFault::BadGranule),
    }
}

/// An SMMU with both stages, EL2 and each granule, and range invalidation if that is said.
fn smmu(asked: &Asked<'_>) -> Smmu
    ensures { result ≡ smmu_of asked.now }
{
    let idr3 = if asked.range_invalidation { RIL } else { 0 };
    Smmu::from_registers(STAGES, 0, idr3, GRANULES)
}

fn policy(asked: &Asked<'_>) -> Policy
    ensures { result ≡ policy_of asked.now }
{
    Policy {
        most_commands: match asked.most_commands {
            Some(most) => u64::from(most),
            None => USUAL_LIMIT,
        },
        global_pages: false,
    }
}

/// Returns the commands that are asked for, for an SMMU that has every stage and granule, where no page is global.
/// Errors, the first of: a VMID or an ASID, an address, a length, a granule that can't be read; bytes past the end.
#[tactic(auto, using(crate::proofs::MeaningLemmas::has_all))]
pub fn commands(asked: &Asked<'_>) -> Result<Commands, RangeFault>
    ensures { result ≡ plan_asked asked.now }
{
    let invalidation = invalidation(asked)?;
    match Commands::new(&invalidation, &smmu(asked), &policy(asked)) {
        Ok(commands) => Ok(commands),
        Err(_) => Err(RangeFault::PastEnd),
    }
}
