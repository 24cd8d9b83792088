//! The pages that drivers map, invalidate and free.
use caches::{Scope, Tag};
use cmdcodec::{Asid, Page, Raw, Vmid};
use std::alloc::{AllocError, Global};
use std::sync::atomic::AtomicU64;
use std::sync::atomic::Ordering::SeqCst;

/// TLBI_NH_VA.
const TLBI_NH_VA: u64 = 0x12;

/// The machine and the address space of all pages.
const MACHINE: u64 = 1;

const SPACE: u64 = 1;

/// What drivers and devices share of the address at a place: its translation table entry, which says the how manieth page
/// is mapped there, and the last page of it that was freed. Page 0 is never freed.
#[derive(Drop)]
struct Address {
    mapped: AtomicU64,
    freed: AtomicU64,
}

/// All addresses, and whether the model is over.
#[derive(Drop)]
pub(crate) struct Pages {
    addresses: Vec<Address>,
    over: AtomicU64,
}

impl Pages {
    /// At each address page 1 is mapped, and none is free.
    pub(crate) fn new(alloc: Global, count: u32) -> Result<Pages, AllocError> {
        let mut addresses = Vec::new(alloc);
        for _ in 0..count {
            addresses.push(Address {
                mapped: AtomicU64::new(1),
                freed: AtomicU64::new(0),
            })?;
        }
        Ok(Pages {
            addresses,
            over: AtomicU64::new(0),
        })
    }

    /// The page that is mapped at a place, as a walk of the tables reads it.
    pub(crate) fn mapped(&self, place: u32) -> u64 {
        match self.addresses.get(place as usize) {
            Some(address) => address.mapped.load(SeqCst),
            None => 0,
        }
    }

    /// Maps the next page at a place.
    pub(crate) fn map(&self, place: u32, page: u64) {
        if let Some(address) = self.addresses.get(place as usize) {
            address.mapped.store(page, SeqCst);
        }
    }

    /// Frees a page and those before it.
    pub(crate) fn free(&self, place: u32, page: u64) {
        if let Some(address) = self.addresses.get(place as usize) {
            address.freed.store(page, SeqCst);
        }
    }

    /// Whether a page is free.
    pub(crate) fn is_free(&self, place: u32, page: u64) -> bool {
        match self.addresses.get(place as usize) {
            Some(address) => page <= address.freed.load(SeqCst),
            None => false,
        }
    }

    /// Tells the drivers that the model is over.
    pub(crate) fn end(&self) {
        self.over.store(1, SeqCst);
    }

    pub(crate) fn is_over(&self) -> bool {
        self.over.load(SeqCst) != 0
    }
}

/// The tag of the translation of the address at a place.
pub(crate) fn tag_of(place: u32) -> Tag {
    Tag::S1 {
        vmid: Vmid::new(MACHINE).unwrap(),
        scope: Scope::Of(Asid::new(SPACE).unwrap()),
        page: Page::new(u64::from(place)).unwrap(),
        span: 0,
    }
}

/// The TLBI_NH_VA of the address at a place.
pub(crate) fn invalidation_of(place: u32) -> Raw {
    Raw {
        lo: SPACE << 48 | MACHINE << 32 | TLBI_NH_VA,
        hi: u64::from(place) << 12,
    }
}
