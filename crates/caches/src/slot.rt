//! What the index of the caches says of the entries whose ranks have one slot.
ghost use Rattle.std.specs.Prelude.{◌≡◌, ◌+◌, ◌^◌, ◌<◌, cond, false, if◌then◌else◌, Some, None, IfSome};
ghost use Rattle.std.specs.Option.{option_and_then};
ghost use Rattle.std.specs.Ordering.{eq_by_cmp};
ghost use Rattle.caches.specs.Keys.{tag_of};
ghost use Rattle.caches.specs.Slots.{entry_of, noted_in, size_of};

use crate::rank::Rank;
use crate::tag::{Entry, Tag};

/// An entry without its tag, which its rank says.
#[derive(Clone, Copy)]
pub(crate) struct Noted {
    pub(crate) rank: Rank,
    pub(crate) value: u64,
    pub(crate) born: u64,
}

/// What is known of the entries whose ranks have this slot.
///
/// The counts stand first, where they take no room of their own.
#[derive(Clone, Copy)]
pub(crate) enum Slot {
    /// How many there are. None of them is noted.
    Unnoted { all: usize },
    /// The newest of them, and how many others there are.
    Newest { others: usize, noted: Noted },
}

impl Noted {
    /// Returns the entry if it is that of this rank, which is the tag's.
    #[inline(always)]
    pub(crate) fn entry_at(&self, rank: Rank, tag: Tag) -> Option<Entry>
        requires { tag ≡ tag_of rank }
        ensures { result
            ≡ cond (eq_by_cmp ⟦<Rank as Ord>⟧.cmp self.now.rank rank) (Some (entry_of self.now))
            None }
    {
        if self.rank == rank {
            Some(Entry {
                tag,
                value: self.value,
                born: self.born,
            })
        } else {
            None
        }
    }
}

impl Slot {
    /// Notes that this entry is put into the map, as a new one or in place of one of the same rank.
    pub(crate) fn put_in(&mut self, noted: Noted, is_new: bool)
        requires counted { is_new ≡ false → 0 < size_of self.old }
        requires few { size_of self.old < 2 ^ 63 }
        ensures size { size_of self.new ≡ size_of self.old + (if is_new then 1 else 0) }
        ensures noted { noted_in self.new ≡ Some noted }
    {
        let before = match self {
            Slot::Unnoted { all } => *all,
            Slot::Newest { others, .. } => *others + 1,
        };
        let others = if is_new { before } else { before - 1 };
        *self = Slot::Newest { others, noted };
    }

    /// Notes that the entry of this rank is taken out of the map.
    pub(crate) fn take_out(&mut self, rank: Rank)
        requires counted { 0 < size_of self.old }
        requires others { IfSome (noted_in self.old) (λ noted.
            eq_by_cmp ⟦<Rank as Ord>⟧.cmp noted.rank rank ≡ false → 1 < size_of self.old) }
        ensures size { size_of self.new + 1 ≡ size_of self.old }
        ensures noted { noted_in self.new
            ≡ option_and_then (λ noted.
            cond (eq_by_cmp ⟦<Rank as Ord>⟧.cmp noted.rank rank) None (Some noted))
            (noted_in self.old) }
    {
        match self {
            Slot::Unnoted { all } => *all -= 1,
            Slot::Newest { others, noted } => {
                if noted.rank == rank {
                    let all = *others;
                    *self = Slot::Unnoted { all };
                } else {
                    *others -= 1;
                }
            }
        }
    }
}
