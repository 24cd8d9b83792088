//! Cached entries and their tags.
ghost use Rattle.std.specs.Prelude.{◌≡◌, IsTrue, ◌↔◌};
ghost use Rattle.caches.specs.Blocks.{IsAligned, IsBlock};
ghost use Rattle.caches.specs.OneStreams.{is_of_substream};
ghost use Rattle.caches.specs.TagOrder.{numbers, scope_number, substream_number};

use cmdcodec::{Asid, Page, Sid, Ssid, Vmid};

/// The address spaces that a stage 1 translation is for.
#[derive(Clone, Copy, PartialEq, Eq, Debug)]
pub enum Scope {
    /// All address spaces, `nG` 0.
    Global,
    /// One address space.
    Of(Asid),
}

/// Identifies an entry. An entry with a page is for the block of `2^span` pages of 4,096 bytes that starts at
/// that page.
#[derive(Clone, Copy, PartialEq, Eq, Debug)]
pub enum Tag {
    /// The stream table entry of a stream, in the configuration cache.
    Ste {
        sid: Sid,
    },
    /// The context descriptor of a substream, in the configuration cache.
    Cd {
        sid: Sid,
        ssid: Ssid,
    },
    /// A stage 1 translation of a virtual machine, in the TLB.
    S1 {
        vmid: Vmid,
        scope: Scope,
        page: Page,
        span: u8,
    },
    /// A stage 2 translation of a virtual machine, by intermediate physical page, in the TLB.
    S2 {
        vmid: Vmid,
        page: Page,
        span: u8,
    },
    /// A translation of the hypervisor, in the TLB.
    El2 {
        scope: Scope,
        page: Page,
        span: u8,
    },
    /// A translation cached by the endpoint of a stream, for a substream or for none.
    Atc {
        sid: Sid,
        ssid: Option<Ssid>,
        page: Page,
        span: u8,
    },
}

/// A cached entry: its tag, its value, and how many commands were taken before it was filled.
#[derive(Clone, Copy, PartialEq, Eq, Debug)]
pub struct Entry {
    pub tag: Tag,
    pub value: u64,
    pub born: u64,
}

/// Whether a block has at most `2^52` pages and begins at a multiple of its length.
fn is_aligned(page: Page, span: u8) -> bool
    ensures { IsTrue result ↔ IsAligned page span }
{
    span <= 52 && page.get() % (1 << span) == 0
}

fn scope_number(scope: Scope) -> u64
    ensures { result ≡ scope_number scope }
{
    match scope {
        Scope::Global => 0,
        Scope::Of(asid) => u64::from(asid.get()) + 1,
    }
}

fn substream_number(substream: Option<Ssid>) -> u64
    ensures { result ≡ substream_number substream }
{
    match substream {
        None => 0,
        Some(ssid) => u64::from(ssid.get()) + 1,
    }
}

impl Tag {
    /// Returns the tag as numbers, which are ordered as tags are.
    pub(crate) fn numbers(&self) -> [u64; 5]
        ensures { result ≡ numbers self.now }
    {
        match *self {
            Tag::Ste { sid } => [0, u64::from(sid.get()), 0, 0, 0],
            Tag::Cd { sid, ssid } => [1, u64::from(sid.get()), u64::from(ssid.get()), 0, 0],
            Tag::S1 {
                vmid,
                scope,
                page,
                span,
            } => [
                2,
                u64::from(vmid.get()),
                scope_number(scope),
                page.get(),
                u64::from(span),
            ],
            Tag::S2 { vmid, page, span } => {
                [3, u64::from(vmid.get()), page.get(), u64::from(span), 0]
            }
            Tag::El2 { scope, page, span } => {
                [4, scope_number(scope), page.get(), u64::from(span), 0]
            }
            Tag::Atc {
                sid,
                ssid,
                page,
                span,
            } => [
                5,
                u64::from(sid.get()),
                substream_number(ssid),
                page.get(),
                u64::from(span),
            ],
        }
    }

    /// Whether it is that of a context descriptor of another substream than 0.
    pub(crate) fn is_of_substream(&self) -> bool
        ensures { result ≡ is_of_substream self.now }
    {
        match *self {
            Tag::Cd { ssid, .. } => ssid.get() != 0,
            _ => false,
        }
    }

    /// Whether its block, if any, is well formed: at most `2^52` pages, starting at a multiple of its length,
    /// and for stage 2 within the first `2^40` intermediate physical pages.
    pub fn is_block(&self) -> bool
        ensures { IsTrue result ↔ IsBlock self.now }
    {
        match *self {
            Tag::Ste { .. } | Tag::Cd { .. } => true,
            Tag::S1 { page, span, .. }
            | Tag::El2 { page, span, .. }
            | Tag::Atc { page, span, .. } => is_aligned(page, span),
            Tag::S2 { page, span, .. } => {
                is_aligned(page, span) && page.get() + (1 << span) <= 1 << 40
            }
        }
    }
}
