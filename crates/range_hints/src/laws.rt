//! Laws of the definitions. Each is the contract of a function that does nothing.
ghost use Rattle.range_hints.specs.Laws.{ReservedBitsAreIgnored, AllOtherBitsAreKept};

use cmdcodec::free_bits_are_ignored;

/// Two pairs of words that differ only in reserved bits spell the same command with the same hint; two pairs that do
/// differ only in reserved bits. So a command and its hint keep every other bit.
pub fn reserved_bits_are_ignored()
    ensures ignored { ReservedBitsAreIgnored }
    ensures no_others { AllOtherBitsAreKept }
{
    free_bits_are_ignored();
}
