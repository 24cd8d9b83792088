//! Look-ups among guests.
ghost use Rattle.std.specs.Prelude.{◌≡◌, ◌==◌, map, IfOk, MatchOption, None};
ghost use Rattle.std.specs.Option.{option_copied};
ghost use Rattle.std.specs.List.{find, list_any, position};
ghost use Rattle.guest_commands.specs.Mappings.{is_used, attached_to};
ghost use Rattle.guest_table.specs.Tables.{host_sid, IsPlace};

use cmdcodec::{Sid, Vmid};
use guest_commands::Guest;
use std::alloc::{AllocError, Global};

/// The place of the first guest with this VMID.
fn position(guests: &[Guest], vmid: Vmid) -> Option<usize>
    ensures { result ≡ position (λ guest. guest.vmid == vmid) guests.now }
{
    guests.iter().position(|guest| guest.vmid() == vmid)
}

/// The place of the guest with this VMID.
pub(crate) fn place(guests: &[Guest], vmid: Vmid) -> Option<usize>
    ensures { MatchOption result (find (λ guest. guest.vmid == vmid) guests.now
        ≡ None) (IsPlace guests.now vmid) }
{
    position(guests, vmid)
}

/// The guest with this VMID.
pub(crate) fn find(guests: &[Guest], vmid: Vmid) -> Option<&Guest>
    ensures { option_copied result ≡ find (λ guest. guest.vmid == vmid) guests.now }
{
    guests.iter().find(|guest| guest.vmid() == vmid)
}

/// Whether some stream of some guest is this one of the host.
pub(crate) fn is_used(guests: &[Guest], host: Sid) -> bool
    ensures { result ≡ list_any (λ guest. is_used guest host) guests.now }
{
    guests.iter().any(|guest| guest.is_used(host))
}

/// The streams of the host that this stream of the guest is.
pub(crate) fn hosts(alloc: Global, guest: &Guest, sid: Sid) -> Result<Vec<Sid>, AllocError>
    ensures { IfOk result (λ hosts. hosts.items
        ≡ map host_sid (attached_to guest.now.streams sid)) }
{
    guest
        .streams()
        .iter()
        .filter(|stream| stream.sid == sid)
        .map(|stream| stream.host.sid)
        .collect(alloc)
}
