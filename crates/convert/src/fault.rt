//! Why no guest is made.
ghost use Rattle.std.specs.Prelude.{◌≡◌};
ghost use Rattle.convert.specs.Faults.{attach_fault_line, fault_line};

use guest_commands::AttachFault;

/// Why no guest is made of what a command line says (this project's choice).
#[derive(Clone, Copy, Debug, PartialEq, Eq)]
pub enum GuestFault {
    /// The VMID is no number, or none that the host's SMMU has.
    BadVmid,
    /// A stream isn't the guest's number, `=`, the host's, and `,ats` or nothing.
    BadStream,
    /// A stream can't be attached.
    Refused(AttachFault),
    /// Out of memory.
    NoMemory,
}

impl GuestFault {
    /// Returns the line that tells it.
    pub fn line(self) -> &'static str
        ensures { result.now ≡ fault_line self }
    {
        match self {
            GuestFault::BadVmid => "bad vmid\n",
            GuestFault::BadStream => "bad stream\n",
            GuestFault::Refused(fault) => attach_fault_line(fault),
            GuestFault::NoMemory => "no memory\n",
        }
    }
}

fn attach_fault_line(fault: AttachFault) -> &'static str
    ensures { result.now ≡ attach_fault_line fault }
{
    match fault {
        AttachFault::OutOfRange => "refused V1\n",
        AttachFault::Used => "refused V2\n",
        AttachFault::Full => "refused V3\n",
        AttachFault::NoMemory => "no memory\n",
    }
}
