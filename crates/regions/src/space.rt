//! The translations that an invalidation of the TLB is for.
ghost use Rattle.std.specs.Prelude.{◌≡◌, ◌≤◌};
ghost use Rattle.caches.specs.Blocks.{IsBlock};
ghost use Rattle.regions.specs.CommandRegions.{space_of};
ghost use Rattle.regions.specs.Regions.{has_pages_of, in_space};

use crate::address_spaces::AddressSpaces;
use crate::pages::Pages;
use caches::Tag;
use cmdcodec::{Command, Vmid};

/// Whose translations, of which stage.
#[derive(Clone, Copy, Debug, PartialEq, Eq)]
pub enum Space {
    /// Stage 1 of a virtual machine.
    Stage1 { vmid: Vmid, spaces: AddressSpaces },
    /// Stage 2 of a virtual machine, by intermediate physical pages.
    Stage2 { vmid: Vmid },
    /// The hypervisor's.
    El2 { spaces: AddressSpaces },
}

impl Space {
    /// Returns that of a command for one stage of one virtual machine, or for the hypervisor.
    pub(crate) fn of(command: &Command) -> Option<Space>
        ensures { result ≡ space_of command.now }
    {
        match *command {
            Command::TlbiNhAll { vmid } | Command::TlbiNhVaa { vmid, .. } => Some(Space::Stage1 {
                vmid,
                spaces: AddressSpaces::Every,
            }),
            Command::TlbiNhAsid { vmid, asid } => Some(Space::Stage1 {
                vmid,
                spaces: AddressSpaces::One(asid),
            }),
            Command::TlbiNhVa { vmid, asid, .. } => Some(Space::Stage1 {
                vmid,
                spaces: AddressSpaces::OneAndGlobal(asid),
            }),
            Command::TlbiS2Ipa { vmid, .. } => Some(Space::Stage2 { vmid }),
            Command::TlbiEl2All | Command::TlbiEl2Vaa { .. } => Some(Space::El2 {
                spaces: AddressSpaces::Every,
            }),
            Command::TlbiEl2Asid { asid } => Some(Space::El2 {
                spaces: AddressSpaces::One(asid),
            }),
            Command::TlbiEl2Va { asid, .. } => Some(Space::El2 {
                spaces: AddressSpaces::OneAndGlobal(asid),
            }),
            _ => None,
        }
    }

    /// Whether the entry with this tag is one of the space's, for a block that has a page among these.
    pub(crate) fn holds(self, pages: Pages, tag: &Tag) -> bool
        requires { IsBlock tag.now }
        ensures { result ≡ in_space self (has_pages_of pages) tag.now }
    {
        match self {
            Space::Stage1 { vmid, spaces } => match *tag {
                Tag::S1 {
                    vmid: of,
                    scope,
                    page,
                    span,
                } => { of == vmid && spaces.has(scope) && pages.meet_block(page, span) }
                _ => false,
            },
            Space::Stage2 { vmid } => match *tag {
                Tag::S2 {
                    vmid: of,
                    page,
                    span,
                } => of == vmid && pages.meet_block(page, span),
                _ => false,
            },
            Space::El2 { spaces } => match *tag {
                Tag::El2 { scope, page, span } => spaces.has(scope) && pages.meet_block(page, span),
                _ => false,
            },
        }
    }
}
