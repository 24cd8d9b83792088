//! Free VMIDs.
ghost use Rattle.std.specs.Prelude.{◌≡◌, ◌==◌, MatchOption};
ghost use Rattle.std.specs.List.{list_any};
ghost use Rattle.guest_table.specs.Tables.{is_free, IsFirstFree, NoneIsFreeBelow};

use cmdcodec::Vmid;
use guest_commands::Guest;

/// The number of VMIDs: they have 16 bits.
const VMIDS: u64 = 1 << 16;

/// Whether some guest has the VMID.
fn is_guests(guests: &[Guest], vmid: Vmid) -> bool
    ensures { result ≡ list_any (λ guest. guest.vmid == vmid) guests.now }
{
    guests.iter().any(|guest| guest.vmid() == vmid)
}

/// Whether the VMID is leaving.
fn is_leaving(leaving: &[Vmid], vmid: Vmid) -> bool
    ensures { result ≡ list_any (λ other. other == vmid) leaving.now }
{
    leaving.iter().any(|other| *other == vmid)
}

/// Whether no guest has the VMID, and it isn't leaving.
fn is_free(guests: &[Guest], leaving: &[Vmid], vmid: Vmid) -> bool
    ensures { result ≡ is_free guests.now leaving.now vmid }
{
    let has_guest = is_guests(guests, vmid);
    let has_left = is_leaving(leaving, vmid);
    !(has_guest | has_left)
}

/// The least free VMID above 0.
pub(crate) fn first_free(guests: &[Guest], leaving: &[Vmid]) -> Option<Vmid>
    ensures { MatchOption result (NoneIsFreeBelow guests.now leaving.now 65536)
        (IsFirstFree guests.now leaving.now) }
{
    for number in 1..VMIDS {
        let vmid = Vmid::new(number).unwrap();
        if is_free(guests, leaving, vmid) {
            return Some(vmid);
        }
    }
    None
}
