//! The fields common to all invalidations by address.
ghost use Rattle.std.specs.Prelude.{◌≡◌};
ghost use Rattle.cmdcodec.specs.ByAddress.{by_address};

use crate::command::Command;
use crate::fields::Page;
use crate::reach::Reach;

/// The fields that say which pages an invalidation by address reaches.
#[derive(Clone, Copy)]
pub(crate) struct ByAddress {
    pub(crate) leaf: bool,
    pub(crate) page: Page,
    pub(crate) reach: Reach,
}

impl Command {
    /// Returns its pages, or `None` if it isn't an invalidation by address.
    pub(crate) fn by_address(&self) -> Option<ByAddress>
        ensures { result ≡ by_address self.now }
    {
        match *self {
            Command::TlbiNhVa {
                leaf,
                page,
                reach,
                ..
            }
            | Command::TlbiNhVaa {
                leaf,
                page,
                reach,
                ..
            }
            | Command::TlbiEl2Va {
                leaf,
                page,
                reach,
                ..
            }
            | Command::TlbiEl2Vaa { leaf, page, reach } => Some(ByAddress { leaf, page, reach }),
            Command::TlbiS2Ipa {
                leaf,
                page,
                reach,
                ..
            } => {
                let page = Page::from(page);
                Some(ByAddress { leaf, page, reach })
            }
            _ => None,
        }
    }
}
