//! Sets of kinds, by which entries are evicted together.
ghost use Rattle.std.specs.Prelude.{◌≡◌, ◌≢◌, true, false};
ghost use Rattle.caches.specs.Kinds.{has_kind, kind_of, AreKindsOf};

use crate::tag::Tag;
use crate::tag_test::{Kind, TagTest};

/// A set of kinds, which is a test of tags: the tags of its kinds pass (this project's choice).
#[derive(Clone, Copy, Debug, PartialEq, Eq)]
pub struct Kinds {
    ste: bool,
    cd: bool,
    s1: bool,
    s2: bool,
    el2: bool,
    atc: bool,
}

impl Kinds {
    /// No kind.
    pub const NONE: Kinds = Kinds {
        ste: false,
        cd: false,
        s1: false,
        s2: false,
        el2: false,
        atc: false,
    };

    /// All kinds.
    pub const ALL: Kinds = Kinds {
        ste: true,
        cd: true,
        s1: true,
        s2: true,
        el2: true,
        atc: true,
    };

    /// Returns the set that these bits say: bit 0 for `Kind::Ste`, and so on to bit 5 for `Kind::Atc`, or `None` if a
    /// higher bit is set.
    pub fn from_bits(bits: u32) -> Option<Kinds>
        ensures { AreKindsOf bits result }
    {
        if bits >= 1 << 6 {
            return None;
        }
        Some(Kinds {
            ste: bits % 2 == 1,
            cd: (bits >> 1) % 2 == 1,
            s1: (bits >> 2) % 2 == 1,
            s2: (bits >> 3) % 2 == 1,
            el2: (bits >> 4) % 2 == 1,
            atc: (bits >> 5) % 2 == 1,
        })
    }

    /// Returns the set with this kind too.
    pub fn with(self, kind: Kind) -> Kinds
        ensures added { has_kind result kind ≡ true }
        ensures others { (k : Kind) → k ≢ kind → has_kind result k ≡ has_kind self k }
    {
        match kind {
            Kind::Ste => Kinds { ste: true, ..self },
            Kind::Cd => Kinds { cd: true, ..self },
            Kind::S1 => Kinds { s1: true, ..self },
            Kind::S2 => Kinds { s2: true, ..self },
            Kind::El2 => Kinds { el2: true, ..self },
            Kind::Atc => Kinds { atc: true, ..self },
        }
    }

    /// Whether the set has this kind. `NONE` has none, and `ALL` has each.
    pub fn has(self, kind: Kind) -> bool
        ensures value { result ≡ has_kind self kind }
        ensures none { has_kind Kinds.NONE kind ≡ false }
        ensures all { has_kind Kinds.ALL kind ≡ true }
    {
        match kind {
            Kind::Ste => self.ste,
            Kind::Cd => self.cd,
            Kind::S1 => self.s1,
            Kind::S2 => self.s2,
            Kind::El2 => self.el2,
            Kind::Atc => self.atc,
        }
    }
}

impl Kind {
    /// Returns the kind of what is held under a tag.
    fn of(tag: &Tag) -> Kind
        ensures { result ≡ kind_of tag.now }
    {
        match tag {
            Tag::Ste { .. } => Kind::Ste,
            Tag::Cd { .. } => Kind::Cd,
            Tag::S1 { .. } => Kind::S1,
            Tag::S2 { .. } => Kind::S2,
            Tag::El2 { .. } => Kind::El2,
            Tag::Atc { .. } => Kind::Atc,
        }
    }
}

impl TagTest for Kinds {
    ghost use Rattle.caches.specs.Kinds.{is_of_kinds};

    ghost passing = { is_of_kinds };

    fn passes(&self, tag: &Tag) -> bool {
        self.has(Kind::of(tag))
    }
}
