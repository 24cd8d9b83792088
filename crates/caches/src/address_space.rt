//! Address spaces, and the tags under which a page of one is held.
ghost use Rattle.std.specs.Prelude.{◌≡◌, ◌≤◌};
ghost use Rattle.caches.specs.Finding.{block_at, own_tag, IsShared};

use crate::tag::{Scope, Tag};
use cmdcodec::{Asid, Page, Sid, Ssid, Vmid};

/// Whose translations are looked up. An endpoint's accesses with a substream and those without are different spaces.
#[derive(Clone, Copy, PartialEq, Eq, Debug)]
pub enum AddressSpace {
    /// What stage 1 translates of a virtual machine, by its VMID and an ASID.
    S1 { vmid: Vmid, asid: Asid },
    /// What stage 2 translates of a virtual machine, its intermediate physical addresses, by its VMID.
    S2 { vmid: Vmid },
    /// What the hypervisor translates, by an ASID.
    El2 { asid: Asid },
    /// What the endpoint of a stream has translated, by its StreamID and the SubstreamID of its accesses, or `None` for
    /// those without one.
    Atc { sid: Sid, ssid: Option<Ssid> },
}

/// Returns the first page of the block of `2^span` pages that has this page.
fn block_at(page: Page, span: u8) -> Page
    requires { span ≤ 52 }
    ensures { result ≡ block_at page span }
{
    let size = 1 << span;
    Page::new(page.get() / size * size).unwrap()
}

impl AddressSpace {
    /// Returns the tag of its own block of `2^span` pages that has this page.
    pub(crate) fn own_tag(&self, page: Page, span: u8) -> Tag
        requires { span ≤ 52 }
        ensures { result ≡ own_tag self.now page span }
    {
        let page = block_at(page, span);
        match *self {
            AddressSpace::S1 { vmid, asid } => Tag::S1 {
                vmid,
                scope: Scope::Of(asid),
                page,
                span,
            },
            AddressSpace::S2 { vmid } => Tag::S2 { vmid, page, span },
            AddressSpace::El2 { asid } => Tag::El2 {
                scope: Scope::Of(asid),
                page,
                span,
            },
            AddressSpace::Atc { sid, ssid } => Tag::Atc {
                sid,
                ssid,
                page,
                span,
            },
        }
    }

    /// Returns the tag of the global block of `2^span` pages that has this page, or `None` if no global block is for
    /// this space.
    pub(crate) fn shared_tag(&self, page: Page, span: u8) -> Option<Tag>
        requires { span ≤ 52 }
        ensures { IsShared self.now page span result }
    {
        match *self {
            AddressSpace::S1 { vmid, .. } => Some(Tag::S1 {
                vmid,
                scope: Scope::Global,
                page: block_at(page, span),
                span,
            }),
            AddressSpace::El2 { .. } => Some(Tag::El2 {
                scope: Scope::Global,
                page: block_at(page, span),
                span,
            }),
            AddressSpace::S2 { .. } | AddressSpace::Atc { .. } => None,
        }
    }
}
