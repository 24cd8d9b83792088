//! Why a ring isn't made.
ghost use Rattle.std.specs.Prelude.{◌≡◌, ◌≤◌, Some, None, IfOk, IfErr, OnOk};
ghost use Rattle.ringcore.specs.Limits.{most_senders};
ghost use Rattle.ringcore.specs.RingFaults.{fault_label, number_fault};

use crate::limits::MOST_SENDERS;
use qindex::Geometry;
use std::alloc::AllocError;
use thiserror::Error;

/// Why a ring isn't made: the first fault that applies.
#[derive(Clone, Copy, Debug, PartialEq, Eq, Error)]
pub enum RingFault {
    /// N1: the ring doesn't have `2^1` to `2^19` slots.
    #[error("N1: the ring isn't of 2 to 524,288 slots")]
    Size,
    /// N2: the number of senders isn't 1 to 256.
    #[error("N2: the senders aren't 1 to 256")]
    Senders,
    /// N3: a sender may reserve no batch.
    #[error("N3: a sender may reserve no batch")]
    Batches,
    /// N4: out of memory.
    #[error("N4: out of memory")]
    Memory(AllocError),
}

impl RingFault {
    /// Returns its label, `N1` to `N4`.
    pub fn label(self) -> &'static str
        ensures { result.now ≡ fault_label self }
    {
        match self {
            RingFault::Size => "N1",
            RingFault::Senders => "N2",
            RingFault::Batches => "N3",
            RingFault::Memory(_) => "N4",
        }
    }
}

impl From<AllocError> for RingFault {
    fn from(error: AllocError) -> RingFault
        ensures { result ≡ RingFault.Memory error }
    {
        RingFault::Memory(error)
    }
}

/// Returns the geometry of a ring of `2^log2` slots, if one can be made for this many senders, each of which
/// may reserve `max_batches` batches.
///
/// Errors, in this order: N1 if log2 isn't 1 to 19, N2 if senders isn't 1 to 256, N3 if max_batches is 0.
pub fn ring_geometry(log2: u32, senders: u32, max_batches: u32) -> Result<Geometry, RingFault>
    ensures geometry { IfOk result (λ geometry. geometry ≡ log2) }
    ensures some { OnOk result (1 ≤ senders) }
    ensures senders { OnOk result (senders ≤ most_senders) }
    ensures numbers { OnOk result (number_fault log2 senders max_batches ≡ None) }
    ensures refused { IfErr result (λ fault. number_fault log2 senders max_batches ≡ Some fault) }
{
    let Some(geometry) = Geometry::new(log2) else {
        return Err(RingFault::Size);
    };
    if senders < 1 || senders > MOST_SENDERS {
        return Err(RingFault::Senders);
    }
    if max_batches == 0 {
        return Err(RingFault::Batches);
    }
    Ok(geometry)
}
