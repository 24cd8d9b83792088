//! Commands for a single page. Of each span they cover at most one block, under one key or two.
ghost use Rattle.std.specs.Prelude.{◌≡◌, ◌<◌, ◌≤◌, ◌-◌, ◌%◌, ◌^◌, is_some, IfSome};
ghost use Rattle.caches.specs.Blocks.{IsBlock};
ghost use Rattle.caches.specs.Covers.{covers};
ghost use Rattle.caches.specs.OnePages.{key_in, is_for_page, is_on, is_page};
ghost use Rattle.caches.specs.Ranks.{part_of};
ghost use Rattle.caches.specs.declared.tag.Tag.{Tag};

use crate::key::{Key, Stage};
use crate::ranges::block_start;
use crate::rank::Rank;
use cmdcodec::{Command, Reach, Vmid};

/// Whose translations they are: those of a stage of a virtual machine, or of the hypervisor in an address space, or in
/// all.
#[derive(Clone, Copy)]
pub(crate) enum Holder {
    Guest { vmid: u16, stage: Stage },
    Host { asid: Option<u16> },
}

/// What a command for a single page covers: the blocks of one holder, or of two, that hold the page.
#[derive(Clone, Copy)]
pub(crate) struct OnePage {
    pub(crate) page: u64,
    pub(crate) own: Holder,
    /// Who has the translations for all address spaces, which a command for one covers too.
    pub(crate) shared: Option<Holder>,
}

impl Holder {
    /// Returns the rank of its block of `2^span` pages that holds a page.
    pub(crate) fn block_at(self, page: u64, span: u8) -> Rank
        requires { span ≤ 52 }
        ensures { result ≡ key_in self (page - page % 2 ^ span) span }
    {
        Rank::at(self.key(block_start(page, span), span))
    }

    fn guest(vmid: Vmid, stage: Stage) -> Holder
        ensures { result ≡ Holder.Guest vmid stage }
    {
        Holder::Guest {
            vmid: vmid.get(),
            stage,
        }
    }

    fn key(self, page: u64, span: u8) -> Key
        ensures key { result ≡ key_in self page span }
        ensures part { part_of result < 2 ^ 22 }
    {
        match self {
            Holder::Guest { vmid, stage } => Key::Machine {
                vmid,
                page,
                span,
                stage,
            },
            Holder::Host { asid } => Key::Hypervisor { page, span, asid },
        }
    }
}

impl OnePage {
    /// Returns what `command` covers if it is for a single page and for one address space, or for stage 2.
    ///
    /// Inlined, since all other commands pass by.
    #[inline(always)]
    pub(crate) fn of(command: &Command) -> Option<OnePage>
        ensures when { is_some result ≡ is_for_page command.now }
        ensures covered { IfSome result (λ one. (tag : Tag) → IsBlock tag
            → covers command.now tag ≡ is_on one tag) }
    {
        match *command {
            Command::TlbiNhVa {
                vmid,
                asid,
                page,
                reach,
                ..
            } => {
                let own = Holder::guest(vmid, Stage::One(Some(asid.get())));
                let shared = Holder::guest(vmid, Stage::One(None));
                OnePage::at(page.get(), reach, own, Some(shared))
            }
            Command::TlbiEl2Va {
                asid,
                page,
                reach,
                ..
            } => {
                let own = Holder::Host {
                    asid: Some(asid.get()),
                };
                OnePage::at(page.get(), reach, own, Some(Holder::Host { asid: None }))
            }
            Command::TlbiS2Ipa {
                vmid,
                page,
                reach,
                ..
            } => OnePage::at(page.get(), reach, Holder::guest(vmid, Stage::Two), None),
            _ => None,
        }
    }

    /// The blocks that hold a page, if it alone is reached.
    fn at(page: u64, reach: Reach, own: Holder, shared: Option<Holder>) -> Option<OnePage>
        ensures when { is_some result ≡ is_page reach }
        ensures one { IfSome result (λ one. (reach ≡ Reach.Page)
            × (one ≡ record { page = page; own = own; shared = shared })) }
    {
        match reach {
            Reach::Page => Some(OnePage { page, own, shared }),
            Reach::Range { .. } => None,
        }
    }
}
