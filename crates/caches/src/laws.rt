//! Laws of the definitions. Each is the contract of a function that does nothing.
ghost use Rattle.caches.specs.Laws.{HeldIsWhatStands, NothingElseIsHeld, HeldSpeaksOfEachTagOnce, UncoveredEntriesStay, Range31IsAllStreams, Size52IsAllPages, NsnhIsAllMachines, MeetingIsToShareAPage, RangesCoverTheirPages};

use cmdcodec::runs_are_of_whole_granules;

/// What is held after a history is exactly its fills that no later item ends: no fill of the same tag, no
/// eviction of it, and no command that covers it.
pub fn held_is_what_stands()
    ensures stands { HeldIsWhatStands }
    ensures only { NothingElseIsHeld }
{}

/// At most one entry is held per tag.
pub fn held_speaks_of_each_tag_once()
    ensures { HeldSpeaksOfEachTagOnce }
{}

/// A command that covers nothing held changes nothing.
pub fn uncovered_entries_stay()
    ensures { UncoveredEntriesStay }
{}

/// CFGI_STE_RANGE with Range 31 covers exactly the stream table entries and context descriptors, ATC_INV with
/// Size 52 and SSV 0 exactly the entries of its stream's endpoint, and TLBI_NSNH_ALL exactly the translations
/// of virtual machines.
pub fn whole_spaces_are_covered()
    ensures streams { Range31IsAllStreams }
    ensures endpoint { Size52IsAllPages }
    ensures machines { NsnhIsAllMachines }
{}

/// A block meets a nonempty run exactly if they share a page.
pub fn meeting_is_to_share_a_page()
    ensures { MeetingIsToShareAPage }
{}

/// A command by address covers a tag exactly if the command for one of the pages of its run does.
pub fn ranges_cover_their_pages()
    ensures { RangesCoverTheirPages }
{
    runs_are_of_whole_granules();
}
