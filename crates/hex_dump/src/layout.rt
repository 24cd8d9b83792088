//! How the bytes of a line are laid out.
ghost use Rattle.std.specs.Prelude.{◌≡◌};
ghost use Rattle.hex_dump.specs.Slots.{bare_layout, is_prefixed, layout_of, prefixed_layout};

use script::is_hex;

/// How the bytes of a line are laid out. Numbers of 32 and of 64 bits are those of a little-endian machine.
#[derive(Clone, Copy, Debug, PartialEq, Eq)]
pub(crate) enum Layout {
    /// Two digits a byte.
    Bytes,
    /// Four digits, two bytes in order.
    BytePairs,
    /// Eight digits, a number of 32 bits, behind 0x or not.
    Words { prefixed: bool },
    /// Sixteen digits, a number of 64 bits, behind 0x or not.
    Doublewords { prefixed: bool },
}

fn prefixed_layout(digits: usize) -> Option<Layout>
    ensures { result ≡ prefixed_layout digits }
{
    match digits {
        8 => Some(Layout::Words { prefixed: true }),
        16 => Some(Layout::Doublewords { prefixed: true }),
        _ => None,
    }
}

fn bare_layout(colon: bool, digits: usize) -> Option<Layout>
    ensures { result ≡ bare_layout colon digits }
{
    match digits {
        2 => Some(Layout::Bytes),
        4 if colon => Some(Layout::BytePairs),
        8 => Some(Layout::Words { prefixed: false }),
        16 => Some(Layout::Doublewords { prefixed: false }),
        _ => None,
    }
}

impl Layout {
    /// Returns the layout of a line by its first data word. `colon` says whether one is behind the address.
    pub(crate) fn of(colon: bool, word: &[u8]) -> Option<Layout>
        ensures { result ≡ layout_of colon word.now }
    {
        if is_hex(word) {
            prefixed_layout(word.len() - 2)
        } else {
            bare_layout(colon, word.len())
        }
    }

    pub(crate) fn is_prefixed(self) -> bool
        ensures { result ≡ is_prefixed self }
    {
        match self {
            Layout::Bytes | Layout::BytePairs => false,
            Layout::Words { prefixed } | Layout::Doublewords { prefixed } => prefixed,
        }
    }
}
