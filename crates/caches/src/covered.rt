//! Tells which entries of the map a command covers.
ghost use Rattle.caches.specs.Sweep.{IsKeeping};
ghost use Rattle.caches.specs.Told.{AreTold, only_covered};
ghost use Rattle.caches.specs.Unlisted.{unlisted};

use crate::covering::covers;
use crate::entry_map::is_among;
use crate::held_entry::HeldEntry;
use crate::rank::Rank;
use crate::tag::Entry;
use cmdcodec::Command;
use std::collections::BTreeMap;

/// Writes the entries that `command` covers, but the listed ones, to the beginning of `room` as far as it reaches, and
/// returns how many they are. One walk along the map; takes no memory.
pub(crate) fn tell_covered(
    map: &BTreeMap<Rank, HeldEntry>,
    removed: &[Rank],
    command: &Command,
    room: &mut [Entry],
) -> usize
    requires keeping { IsKeeping ⟦<Rank as Ord>⟧.cmp map.now }
    ensures { AreTold (only_covered command.now (unlisted map.now removed.now)) room.old room.new
        result }
{
    let mut count = 0;
    for held in map.values() {
        let entry = held.get();
        if covers(command, &entry.tag) && !is_among(removed, Rank::of(&entry.tag)) {
            if count < room.len() {
                room[count] = *entry;
            }
            count += 1;
        }
    }
    count
}
