//! Tests of tags by whose entries they are.
use crate::tag::Tag;
use crate::tag_test::TagTest;
use cmdcodec::{Sid, Vmid};

/// What is held of a stream, as a test of tags (this project's choice): its stream table entry, its context descriptors,
/// and the translations that its endpoint holds.
#[derive(Clone, Copy, Debug, PartialEq, Eq)]
pub struct OfStream(pub Sid);

/// What is held of a virtual machine, as a test of tags (this project's choice): its stage 1 translations, the global
/// ones too, and its stage 2 translations.
#[derive(Clone, Copy, Debug, PartialEq, Eq)]
pub struct OfMachine(pub Vmid);

impl TagTest for OfStream {
    ghost use Rattle.caches.specs.OwnerTests.{is_of_stream};

    ghost passing = { is_of_stream };

    fn passes(&self, tag: &Tag) -> bool {
        match *tag {
            Tag::Ste { sid } | Tag::Cd { sid, .. } | Tag::Atc { sid, .. } => sid == self.0,
            Tag::S1 { .. } | Tag::S2 { .. } | Tag::El2 { .. } => false,
        }
    }
}

impl TagTest for OfMachine {
    ghost use Rattle.caches.specs.OwnerTests.{is_of_machine};

    ghost passing = { is_of_machine };

    fn passes(&self, tag: &Tag) -> bool {
        match *tag {
            Tag::S1 { vmid, .. } | Tag::S2 { vmid, .. } => vmid == self.0,
            Tag::Ste { .. } | Tag::Cd { .. } | Tag::El2 { .. } | Tag::Atc { .. } => false,
        }
    }
}
