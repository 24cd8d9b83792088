//! The last invalidations that were taken.
ghost use Rattle.std.specs.Prelude.{◌≡◌, ◌<◌, IsTrue, ◌↔◌, [], ◌∷◌, ◌++◌, IfOk, length};
ghost use Rattle.caches.specs.Blocks.{IsBlock};
ghost use Rattle.transactions.specs.RecentInvalidations.{IsBeforeOldest, HasCovering};
ghost use Rattle.transactions.specs.Since.{kept_with};

use crate::coverage::words_cover;
use caches::Tag;
use circular_buffer::HeapCircularBuffer;
use cmdcodec::Raw;
use std::alloc::{AllocError, Global};
use std::marker::Model;

/// How many invalidations are kept: a walk is too old once more than 64 were taken since it began.
const KEPT: usize = 65;

/// An invalidation that was taken: how many commands were taken before it, and its words.
#[derive(Clone, Copy, Debug, PartialEq, Eq)]
pub struct Invalidation {
    pub place: u64,
    pub raw: Raw,
}

/// The last invalidations that were taken, the oldest first.
#[derive(Drop)]
pub struct RecentInvalidations {
    kept: HeapCircularBuffer<Invalidation>,
}

impl Model for RecentInvalidations {
    ghost use Rattle.std.specs.Prelude.{◌≡◌, List};
    ghost use Rattle.transactions.specs.declared.recent_invalidations.Invalidation.{Invalidation};

    ghost Value = { List Invalidation };

    ghost view = { λ r. r.kept.items };

    ghost invariant = { λ r. r.kept.capacity ≡ 65 };
}

impl RecentInvalidations {
    /// Nothing was taken yet.
    pub(crate) fn new(alloc: Global) -> Result<RecentInvalidations, AllocError>
        ensures { IfOk result (λ r. r ≡ []) }
    {
        let kept = HeapCircularBuffer::with_capacity(alloc, KEPT)?;
        Ok(RecentInvalidations { kept })
    }

    /// Keeps an invalidation that was taken, in place of the oldest if there is no more room.
    pub(crate) fn keep(&mut self, invalidation: Invalidation)
        ensures { self.new ≡ kept_with self.old invalidation }
    {
        let _oldest = self.kept.push_back(invalidation);
    }

    /// Forgets all.
    pub(crate) fn clear(&mut self)
        ensures { self.new ≡ [] }
    {
        self.kept.clear();
    }

    /// Whether more than 64 were taken since so many commands were.
    pub(crate) fn is_before_oldest(&self, began: u64) -> bool
        ensures { IsTrue result ↔ IsBeforeOldest self.now began }
    {
        if !self.kept.is_full() {
            return false;
        }
        match self.kept.get(0) {
            None => false,
            Some(oldest) => began <= oldest.place,
        }
    }

    /// Whether one of those that are kept covers the tag, and was taken since so many commands
    /// were.
    pub(crate) fn has_covering(&self, began: u64, tag: &Tag) -> bool
        requires { IsBlock tag.now }
        ensures { IsTrue result ↔ HasCovering self.now began tag.now }
    {
        has_covering(&self.kept, began, tag)
    }
}

fn has_covering(kept: &HeapCircularBuffer<Invalidation>, began: u64, tag: &Tag) -> bool
    requires { IsBlock tag.now }
    ensures { IsTrue result ↔ HasCovering kept.now.items began tag.now }
{
    for index in 0..kept.len() {
        if let Some(one) = kept.get(index) {
            if began <= one.place && words_cover(one.raw, tag) {
                return true;
            }
        }
    }
    false
}
