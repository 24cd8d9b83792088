//! An entry as the ordered map holds it.
ghost use Rattle.std.specs.Prelude.{◌≡◌, IfOk};

use crate::tag::Entry;
use std::alloc::{AllocError, Global};
use std::marker::Model;

/// An entry in memory of its own, so that the map moves no more than its place. Contracts see it as the entry.
#[derive(Drop)]
pub(crate) struct HeldEntry {
    at: Box<Entry>,
}

impl Model for HeldEntry {
    ghost use Rattle.caches.specs.declared.tag.Entry.{Entry};

    ghost Value = { Entry };

    ghost view = { λ held. held.at.value };
}

impl HeldEntry {
    pub(crate) fn new(alloc: Global, entry: Entry) -> Result<HeldEntry, AllocError>
        ensures { IfOk result (λ held. held ≡ entry) }
    {
        Ok(HeldEntry {
            at: Box::new(alloc, entry)?,
        })
    }

    #[inline(always)]
    pub(crate) fn get(&self) -> &Entry
        ensures { result.now ≡ self.now }
    {
        &*self.at
    }

    /// Writes another entry over it, and returns the one that was there.
    pub(crate) fn replace(&mut self, entry: Entry) -> Entry
        ensures was { result ≡ self.old }
        ensures after { self.new ≡ entry }
    {
        let was = *self.at;
        *self.at = entry;
        was
    }
}
