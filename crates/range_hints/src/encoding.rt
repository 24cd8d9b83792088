//! Encodes a command and its level hint into two words.
ghost use Rattle.std.specs.Prelude.{◌≡◌};
ghost use Rattle.range_hints.specs.Hints.{SpellsWithHint, kept_ttl};
ghost use Rattle.range_hints.specs.HintedWords.{hinted_words};
ghost use Rattle.range_hints.specs.ReservedBits.{HasReservedBitsZero};

use crate::ttl::{Ttl, has_ttl};
use cmdcodec::{Command, Raw, encode};

/// Returns the words that spell `command` with this hint, with every reserved bit 0. A command without a place for a
/// hint is written without it.
pub fn encode_with_hint(command: &Command, ttl: Ttl) -> Raw
    ensures words { result ≡ hinted_words command.now ttl }
    ensures spells { SpellsWithHint result command.now (kept_ttl command.now ttl) }
    ensures reserved { HasReservedBitsZero result command.now }
{
    let raw = encode(command);
    if !has_ttl(command) {
        return raw;
    }
    Raw {
        lo: raw.lo,
        hi: raw.hi + (u64::from(ttl.get()) << 8),
    }
}
