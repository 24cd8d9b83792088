//! What an SMMU caches and what each command removes: the configuration cache, the TLB and the endpoints'
//! caches.
//!
//! What is held depends only on the history: a fill stands until its tag is filled again or evicted, or a
//! command covers it. `Covers.antt` defines which tags each command covers.
//!
//! All entries are in one ordered map. Its keys keep together what one command removes: by stream, by virtual
//! machine and page, by page of the hypervisor, by endpoint and page. A command for streams or for all of an
//! owner walks the range of keys that may hold covered entries. One by address walks back from its run's end as
//! far as a block that lies wholly before the run. Blocks further down that reach into the run begin at its
//! first page rounded down to a length that was ever filled; it walks back from each of these. Each entry is
//! tested before it is removed, so a walk that is too long only costs time.
//!
//! An index beside the map answers most look-ups in one step: it has a slot for each group of ranks, which counts their
//! entries and notes the newest. For the others the map is searched.
//!
//! A look-up by address makes one or two such look-ups at each span that is asked for and was ever filled, the greatest
//! first.
//!
//! A command for one page, or for the configuration of one stream, looks by the index under each key that it may
//! cover. What it finds it only lists as removed, and so does an eviction; up to 16 such entries stay in the map until
//! they are taken out together.
#![tactic(auto)]

mod address_space;
mod caches;
mod covered;
mod covering;
mod entry_map;
mod entry_test;
mod evicting;
mod fault;
mod finding;
mod held_entry;
mod indexed_map;
mod key;
mod kinds;
mod laws;
mod one_page;
mod one_stream;
mod ranges;
mod rank;
mod slot;
mod spans;
mod sweep;
mod tag;
mod tag_owner;
mod tag_test;
mod walk;

pub use address_space::AddressSpace;
pub use caches::{Caches, MOST_ENTRIES};
pub use covering::covers;
pub use fault::CacheFault;
pub use kinds::Kinds;
pub use laws::{
    held_is_what_stands, held_speaks_of_each_tag_once, meeting_is_to_share_a_page,
    ranges_cover_their_pages, uncovered_entries_stay, whole_spaces_are_covered,
};
pub use tag::{Entry, Scope, Tag};
pub use tag_owner::{OfMachine, OfStream};
pub use tag_test::{Kind, TagTest};
