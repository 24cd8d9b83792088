//! Tests of tags, by which entries are evicted together.
ghost use Rattle.std.specs.Prelude.{◌≡◌, Bool};
ghost use Rattle.caches.specs.declared.tag.Tag.{Tag};

use crate::tag::Tag;

/// A test of tags: it says which entries an eviction takes.
pub trait TagTest {
    /// Which tags pass.
    ghost passing: { Self → Tag → Bool };

    /// Whether a tag passes.
    fn passes(&self, tag: &Tag) -> bool
        ensures { result ≡ passing self.now tag.now };
}

/// The kinds of what is held, each a test of tags.
#[derive(Clone, Copy, Debug, PartialEq, Eq)]
pub enum Kind {
    /// Stream table entries.
    Ste,
    /// Context descriptors.
    Cd,
    /// Stage 1 translations of virtual machines.
    S1,
    /// Stage 2 translations.
    S2,
    /// Translations of the hypervisor.
    El2,
    /// What endpoints hold of their own.
    Atc,
}

impl TagTest for Kind {
    ghost use Rattle.caches.specs.Kinds.{is_of_kind};

    ghost passing = { is_of_kind };

    fn passes(&self, tag: &Tag) -> bool {
        match tag {
            Tag::Ste { .. } => *self == Kind::Ste,
            Tag::Cd { .. } => *self == Kind::Cd,
            Tag::S1 { .. } => *self == Kind::S1,
            Tag::S2 { .. } => *self == Kind::S2,
            Tag::El2 { .. } => *self == Kind::El2,
            Tag::Atc { .. } => *self == Kind::Atc,
        }
    }
}
