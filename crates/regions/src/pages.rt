//! Pages of an address space.
ghost use Rattle.std.specs.Prelude.{◌≡◌, ◌<◌, ◌≤◌, ◌/◌, ◌^◌, ◌↔◌, ℕ};
ghost use Rattle.cmdcodec.specs.PageRuns.{run_of};
ghost use Rattle.caches.specs.Blocks.{block};
ghost use Rattle.caches.specs.Laws.{HasPageInRange};
ghost use Rattle.regions.specs.CommandRegions.{pages_of_block, pages_of_run};
ghost use Rattle.regions.specs.Regions.{has_pages_of, HasPage, HasPages, IsAmong};

use crate::blocks::aligned;
use cmdcodec::{Command, Page, PageRun, Size};

/// The bytes in a page.
const PAGE_BYTES: u64 = 4096;

/// The `Size` of CMD_ATC_INV that is for all pages.
const ALL_PAGES: u8 = 52;

/// Which pages of an address space. A page has 4,096 bytes, whatever the granule of its tables.
#[derive(Clone, Copy, Debug, PartialEq, Eq)]
pub enum Pages {
    /// All.
    Every,
    /// Those from `first` up to, but not including, `end`.
    Run(PageRun),
}

/// The bytes from `first` to `last`, both included.
#[derive(Clone, Copy, Debug, PartialEq, Eq)]
pub struct Addresses {
    pub first: u64,
    pub last: u64,
}

impl Pages {
    /// Returns the addresses of the bytes in these pages.
    pub fn addresses(self) -> Addresses
        requires { HasPages self }
        ensures { (a : ℕ) → a < 2 ^ 64 → IsAmong a result ↔ HasPage self (a / 4096) }
    {
        match self {
            Pages::Every => Addresses {
                first: 0,
                last: u64::MAX,
            },
            Pages::Run(run) => Addresses {
                first: run.first * PAGE_BYTES,
                last: (run.end - 1) * PAGE_BYTES + (PAGE_BYTES - 1),
            },
        }
    }

    /// Returns those of an invalidation of the TLB by address, and all for any other command.
    pub(crate) fn of(command: &Command) -> Pages
        ensures value { result ≡ pages_of_run (run_of command.now) }
        ensures some { HasPages result }
    {
        match *command {
            Command::TlbiNhVa { page, .. }
            | Command::TlbiNhVaa { page, .. }
            | Command::TlbiEl2Va { page, .. }
            | Command::TlbiEl2Vaa { page, .. } => {
                prove!(page.get() < 1 << 52);
                Pages::of_run(command)
            }
            Command::TlbiS2Ipa { page, .. } => {
                prove!(page.get() < 1 << 40);
                Pages::of_run(command)
            }
            _ => Pages::Every,
        }
    }

    /// The run of a command, or all if it has none.
    #[tactic(auto, using(crate::proofs::RunLemmas::pages_some))]
    fn of_run(command: &Command) -> Pages
        requires { HasPageInRange command.now }
        ensures value { result ≡ pages_of_run (run_of command.now) }
        ensures some { HasPages result }
    {
        match command.pages() {
            Some(run) => Pages::Run(run),
            None => Pages::Every,
        }
    }

    /// Returns those of the aligned block of `2^size` pages that holds `page`.
    pub(crate) fn of_block(page: Page, size: Size) -> Pages
        ensures value { result ≡ pages_of_block page size }
        ensures some { HasPages result }
        ensures page { page < 2 ^ 52 }
    {
        if size.get() == ALL_PAGES {
            return Pages::Every;
        }
        Pages::Run(aligned(page.get(), size.get()))
    }

    /// Whether the block of `2^span` pages that starts at `page` has a page among them.
    pub(crate) fn meet_block(self, page: Page, span: u8) -> bool
        requires { span ≤ 52 }
        ensures { result ≡ has_pages_of self (block page span) }
    {
        match self {
            Pages::Every => true,
            Pages::Run(run) => page.get() < run.end && run.first < page.get() + (1 << span),
        }
    }
}
