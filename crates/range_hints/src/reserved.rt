//! Words without what is reserved in them.
ghost use Rattle.std.specs.Prelude.{◌≡◌, Some, Err, IfOk, IfErr};
ghost use Rattle.cmdcodec.specs.Legality.{first_ill};
ghost use Rattle.cmdcodec.specs.declared.ill.Ill.{Ill};
ghost use Rattle.range_hints.specs.Laws.{IsCleared, IsWrittenAgain};

use crate::decoding::decode_with_hint;
use crate::encoding::encode_with_hint;
use crate::laws::reserved_bits_are_ignored;
use cmdcodec::{Ill, Raw};

/// Returns the words with every reserved bit 0 and all others as they are, or their first fault: what is left of them
/// once they were decoded and encoded with their hint.
pub fn without_reserved_bits(raw: Raw) -> Result<Raw, Ill>
    ensures cleared { IfOk result (λ words. IsCleared raw words) }
    ensures again { IfOk result (λ words. IsWrittenAgain raw words) }
    ensures fault { (ill : Ill) → first_ill raw ≡ Some ill → result ≡ Err ill }
    ensures first { IfErr result (λ ill. first_ill raw ≡ Some ill) }
{
    reserved_bits_are_ignored();
    match decode_with_hint(raw) {
        Ok((command, ttl)) => Ok(encode_with_hint(&command, ttl)),
        Err(ill) => Err(ill),
    }
}
