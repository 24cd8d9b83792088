//! Which entries of the translation tables changed.
ghost use Rattle.std.specs.Prelude.{◌≡◌};
ghost use Rattle.invalidations.specs.Targets.{is_leaf, is_hinted, number_of, hint_of};
ghost use Rattle.invalidations.specs.Plans.{known_entries};

use cmdcodec::Granule;

/// The level of an entry of the translation tables.
#[derive(Clone, Copy, Debug, PartialEq, Eq)]
pub enum Level {
    One,
    Two,
    /// The level of pages.
    Three,
}

/// Which entries of the translation tables changed.
#[derive(Clone, Copy, Debug, PartialEq, Eq)]
pub enum Entries {
    /// Entries of any level, tables too: Leaf 0, TTL 0.
    Any,
    /// Only last-level entries, Leaf 1, all of one level if it is known: TTL.
    Leaves { level: Option<Level> },
}

impl Level {
    /// Returns its number, 1 to 3.
    pub fn get(self) -> u8
        ensures { result ≡ number_of self }
    {
        match self {
            Level::One => 1,
            Level::Two => 2,
            Level::Three => 3,
        }
    }
}

impl Entries {
    /// The same, without a level that has no leaves at this granule.
    pub(crate) fn known(self, granule: Granule) -> Entries
        ensures { result ≡ known_entries granule self }
    {
        let Entries::Leaves { level: Some(level) } = self else {
            return self;
        };
        match (granule, level) {
            (Granule::Kib16, Level::One) => Entries::Leaves { level: None },
            _ => self,
        }
    }

    /// Leaf.
    pub(crate) fn is_leaf(self) -> bool
        ensures { result ≡ is_leaf self }
    {
        matches!(self, Entries::Leaves { .. })
    }

    /// Whether TTL isn't 0.
    pub(crate) fn is_hinted(self) -> bool
        ensures { result ≡ is_hinted self }
    {
        matches!(self, Entries::Leaves { level: Some(_) })
    }
}
