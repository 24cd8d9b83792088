//! The granules that hold some bytes.
ghost use Rattle.std.specs.Prelude.{◌≡◌, ◌<◌, ◌≤◌, ◌+◌, ◌-◌, ◌*◌, ◌/◌, ◌^◌, nat_lt, false, true, OnSome};
ghost use Rattle.std.specs.Option.{SomeIff};
ghost use Rattle.invalidations.specs.Spaces.{size_of};
ghost use Rattle.invalidations.specs.Targets.{leaf_bytes, leaf_pages, Fits};
ghost use Rattle.invalidations.specs.Plans.{granules_of, request_of, goes_past};
ghost use Rattle.invalidations.specs.declared.invalidation.Bytes.TheVariants.{Range};

use crate::invalidation::ByteRange;
use crate::request::{GranuleRange, Request, Target};

/// The bytes of a page, as addresses count them.
pub(crate) const PAGE_BYTES: u64 = 4096;

impl Target {
    /// The request for the granules that hold these bytes, rounded outwards to whole leaves, or `None` if a byte
    /// is past the end of the space.
    #[tactic(auto, using(crate::proofs::RoundingLemmas::none_fits, crate::proofs::RoundingLemmas::rounded_fits))]
    pub(crate) fn request(&self, bytes: ByteRange) -> Option<Request>
        ensures found { SomeIff result (goes_past self.now.space (Range bytes)
            ≡ false) (request_of self.now bytes) }
        ensures fits { OnSome result (Fits (request_of self.now bytes)) }
    {
        if bytes.length == 0 {
            let range = GranuleRange { first: 0, count: 0 };
            return Some(Request {
                target: *self,
                range,
            });
        }
        let last = bytes.first.checked_add(bytes.length - 1)?;
        if !self.has_byte(last) {
            return None;
        }
        let range = self.granules(bytes.first, last);
        Some(Request {
            target: *self,
            range,
        })
    }

    fn has_byte(&self, byte: u64) -> bool
        ensures { result ≡ nat_lt byte (size_of self.now.space * 4096) }
    {
        byte / PAGE_BYTES < self.space.size()
    }

    /// The granules of the leaves from that of the first byte to that of the last.
    fn granules(&self, first: u64, last: u64) -> GranuleRange
        requires order { first ≤ last }
        ensures { result
            ≡ granules_of self.now (record { first = first; length = last + 1 - first }) }
    {
        let bytes = self.leaf_bytes();
        let granules = 1 << self.leaf_bits();
        let leaf = first / bytes;
        let end = last / bytes + 1;
        GranuleRange {
            first: leaf * granules,
            count: (end - leaf) * granules,
        }
    }

    /// The bytes of a leaf.
    fn leaf_bytes(&self) -> u64
        ensures value { result ≡ leaf_bytes self.now }
        ensures some { 0 < result }
        ensures in_range { result ≤ 2 ^ 42 }
    {
        (self.granule.pages() << self.leaf_bits()) * PAGE_BYTES
    }
}
