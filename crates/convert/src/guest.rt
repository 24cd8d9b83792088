//! The guest that a command line gives.
ghost use Rattle.std.specs.Prelude.{◌≡◌, OnOk, Ok, Err, IfErr, ◌⊎◌};
ghost use Rattle.convert.specs.declared.fault.GuestFault.TheVariants.{NoMemory};
ghost use Rattle.convert.specs.Guests.{guest_asked, smmu_of, vmid_named, with_stream, without_attachments, IsOrNoMemory};

use crate::asked::Asked;
use crate::fault::GuestFault;
use crate::number::clear_number;
use crate::stream::attachment;
use cmdcodec::Vmid;
use guest_commands::{AttachFault, Guest};
use std::alloc::Global;

/// Returns the guest before its streams are attached.
fn without_streams(alloc: Global, asked: &Asked<'_>) -> Result<Guest, GuestFault>
    ensures { result
        ≡ without_attachments (smmu_of asked.now) (vmid_named (smmu_of asked.now)
        asked.now.vmid.now) }
{
    let Some(vmid) = clear_number(asked.vmid).and_then(Vmid::new) else {
        return Err(GuestFault::BadVmid);
    };
    match Guest::new(alloc, vmid, asked.smmu()) {
        Some(guest) => Ok(guest),
        None => Err(GuestFault::BadVmid),
    }
}

/// Attaches the stream that a text names.
fn attach(guest: &mut Guest, text: &str) -> Result<(), GuestFault>
    ensures ok { OnOk result (with_stream guest.old text.now ≡ Ok guest.new) }
    ensures err { IfErr result (λ fault. (with_stream guest.old text.now ≡ Err fault)
        ⊎ (fault ≡ NoMemory)) }
{
    let Some(stream) = attachment(text) else {
        return Err(GuestFault::BadStream);
    };
    match guest.attach(stream.sid, stream.host) {
        Ok(()) => Ok(()),
        Err(AttachFault::NoMemory) => Err(GuestFault::NoMemory),
        Err(fault) => Err(GuestFault::Refused(fault)),
    }
}

impl<'a> Asked<'a> {
    /// Returns the guest that is asked for. Errors, the first of: a VMID that can't be read or that the host's SMMU
    /// doesn't have; a stream that can't be read or attached; or memory ran out.
    pub fn guest(&self, alloc: Global) -> Result<Guest, GuestFault>
        ensures { IsOrNoMemory (guest_asked self.now) result }
    {
        let mut guest = without_streams(alloc, self)?;
        for text in self.streams.iter() {
            attach(&mut guest, text)?;
        }
        Ok(guest)
    }
}
