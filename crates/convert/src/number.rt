//! The numbers that a command line gives.
ghost use Rattle.std.specs.Prelude.{◌≡◌};
ghost use Rattle.convert.specs.Guests.{clear_number, is_zero_led};

use script::number;

/// Whether a text is two decimal digits or more, of which the first is 0.
fn is_zero_led(text: &[u8]) -> bool
    ensures { result ≡ is_zero_led text.now }
{
    text.len() >= 2 && text[0] == b'0' && (b'0' <= text[1] && text[1] <= b'9')
}

/// Reads a number below 2^64: decimal digits without a leading 0, or `0x` and hexadecimal digits.
pub(crate) fn clear_number(text: &str) -> Option<u64>
    ensures { result ≡ clear_number text.now }
{
    let text = text.as_bytes();
    if is_zero_led(text) {
        None
    } else {
        number(text)
    }
}
