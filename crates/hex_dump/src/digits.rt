//! Parses hexadecimal digits.
ghost use Rattle.std.specs.Prelude.{◌≡◌, ◌<◌, ◌^◌, IfSome};
ghost use Rattle.hex_dump.specs.Digits.{exact_number, word_number};

use script::{hex_number, is_hex};

/// Parses `count` hexadecimal digits.
fn exact_number(count: usize, digits: &[u8]) -> Option<u64>
    ensures value { result ≡ exact_number count digits.now }
    ensures small { IfSome result (λ n. n < 16 ^ count) }
{
    if digits.len() == count {
        hex_number(count, digits)
    } else {
        None
    }
}

/// Parses a word of `count` hexadecimal digits, behind 0x if `prefixed`.
pub(crate) fn word_number(prefixed: bool, count: usize, word: &[u8]) -> Option<u64>
    ensures value { result ≡ word_number prefixed count word.now }
    ensures small { IfSome result (λ n. n < 16 ^ count) }
{
    if !prefixed {
        exact_number(count, word)
    } else if is_hex(word) {
        exact_number(count, &word[2..])
    } else {
        None
    }
}
