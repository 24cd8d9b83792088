//! Laws of the definitions. Each is the contract of a function that does nothing.
ghost use Rattle.guest_commands.specs.Laws.{AnAddressSpaceIsTooLittle, EntriesAreOfOneGuest};

use cmdcodec::runs_are_of_whole_granules;

/// CMD_TLBI_NH_ASID doesn't cover what a range in its address space does: that reaches global entries, too. So a range for
/// which the host has no command becomes a CMD_TLBI_NH_ALL.
pub fn an_address_space_is_too_little()
    ensures { AnAddressSpaceIsTooLittle }
{
    runs_are_of_whole_granules();
}

/// An entry of the host that is a guest's is no other guest's, if they have different VMIDs and no stream in common. So
/// the host's commands for the one cover nothing of the other.
pub fn entries_are_of_one_guest()
    ensures { EntriesAreOfOneGuest }
{}
