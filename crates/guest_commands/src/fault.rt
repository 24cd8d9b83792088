//! Why a stream isn't attached.
ghost use Rattle.std.specs.Prelude.{◌≡◌};
ghost use Rattle.guest_commands.specs.Faults.{label_of};

use thiserror::Error;

/// Why a stream wasn't attached. A refused call changes nothing. The faults are this project's choice.
#[derive(Clone, Copy, PartialEq, Eq, Debug, Error)]
pub enum AttachFault {
    /// V1: the host's SMMU has no stream of this number (SMMU_IDR1.SIDSIZE).
    #[error("V1: the host's SMMU doesn't have this stream")]
    OutOfRange,
    /// V2: a stream of the guest is this stream of the host.
    #[error("V2: the host's stream is in use already")]
    Used,
    /// V3: the guest's stream is 63 streams of the host, as many as a batch has commands.
    #[error("V3: the guest's stream is 63 streams already")]
    Full,
    /// V4: out of memory.
    #[error("V4: out of memory")]
    NoMemory,
}

impl AttachFault {
    /// Returns its label, `V1` to `V4`.
    pub fn label(self) -> &'static str
        ensures { result.now ≡ label_of self }
    {
        match self {
            AttachFault::OutOfRange => "V1",
            AttachFault::Used => "V2",
            AttachFault::Full => "V3",
            AttachFault::NoMemory => "V4",
        }
    }
}
