//! Why a call on a table is refused.
ghost use Rattle.std.specs.Prelude.{◌≡◌};
ghost use Rattle.guest_table.specs.Faults.{fault_of, answer_of};

use guest_commands::AttachFault;
use thiserror::Error;

/// Why a call on a table of guests was refused. A refused call changes nothing. The faults are this project's choice.
#[derive(Clone, Copy, PartialEq, Eq, Debug, Error)]
pub enum TableFault {
    /// No guest has this VMID.
    #[error("no guest has this VMID")]
    NoGuest,
    /// Every VMID from 1 on that the host's SMMU has is a guest's or leaving (SMMU_IDR0.VMID16).
    #[error("the host's SMMU has no VMID left")]
    NoVmid,
    /// The guest still has a stream.
    #[error("the guest still has a stream")]
    HasStreams,
    /// The host's stream was taken from a guest, and hasn't been released.
    #[error("the host's stream is leaving")]
    Leaving,
    /// A stream of some guest is this stream of the host.
    #[error("the host's stream is in use already")]
    Used,
    /// The host's SMMU has no stream of this number (SMMU_IDR1.SIDSIZE).
    #[error("the host's SMMU doesn't have this stream")]
    OutOfRange,
    /// The guest's stream is 63 streams of the host, as many as a batch has commands.
    #[error("the guest's stream is 63 streams already")]
    Full,
    /// Out of memory.
    #[error("out of memory")]
    NoMemory,
}

/// What a table says for what a guest says.
fn fault_of(fault: AttachFault) -> TableFault
    ensures { result ≡ fault_of fault }
{
    match fault {
        AttachFault::OutOfRange => TableFault::OutOfRange,
        AttachFault::Used => TableFault::Used,
        AttachFault::Full => TableFault::Full,
        AttachFault::NoMemory => TableFault::NoMemory,
    }
}

/// A table's answer for a guest's.
pub(crate) fn answer(answer: Result<(), AttachFault>) -> Result<(), TableFault>
    ensures { result ≡ answer_of answer }
{
    match answer {
        Ok(()) => Ok(()),
        Err(fault) => Err(fault_of(fault)),
    }
}
