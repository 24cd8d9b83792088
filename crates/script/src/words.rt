//! Splitting a line into words, and parsing numbers.
ghost use Rattle.std.specs.Prelude.{◌≡◌, ◌≢◌, ◌≤◌, [], ◌∷◌, length, slice_index, MatchOption, true};
ghost use Rattle.std.specs.Char.{digit_value};
ghost use Rattle.script.specs.Words.{words_of, number_in, number_of, is_hex};

use memchr::memchr;

/// Returns the first word of a text and the rest after it, or None if there is no word.
pub fn next_word(text: &[u8]) -> Option<(&[u8], &[u8])>
    ensures { MatchOption result (words_of text.now ≡ []) (λ found. words_of text.now
        ≡ found.0.now ∷ words_of found.1.now) }
{
    let text = without_leading_spaces(text);
    if text.is_empty() {
        return None;
    }
    let end = memchr(b' ', text).unwrap_or(text.len());
    Some((&text[..end], &text[end..]))
}

fn without_leading_spaces(text: &[u8]) -> &[u8]
    ensures words { words_of result.now ≡ words_of text.now }
    ensures first { slice_index result.now 0 ≢ 32 }
{
    let mut rest = text;
    'spaces: while !rest.is_empty() && rest[0] == b' ' {
        rest = &rest[1..];
    }
    rest
}

/// Parses a number below 2^64: 1 to 20 decimal digits, or `0x` and 1 to 16 hexadecimal digits.
pub fn number(word: &[u8]) -> Option<u64>
    ensures { result ≡ number_of word.now }
{
    if is_hex(word) {
        hex_number(16, &word[2..])
    } else {
        number_in(10, 20, word)
    }
}

/// Whether a word begins with `0x`.
pub fn is_hex(word: &[u8]) -> bool
    ensures test { result ≡ is_hex word.now }
    ensures long { result ≡ true → 2 ≤ length word.now }
{
    word.len() >= 2 && word[0] == b'0' && word[1] == b'x'
}

/// Parses 1 to `most` hexadecimal digits of either case as a number below 2^64.
pub fn hex_number(most: usize, digits: &[u8]) -> Option<u64>
    ensures { result ≡ number_in 16 most digits.now }
{
    number_in(16, most, digits)
}

// Parses 1 to `most` digits as a number below 2^64.
fn number_in(radix: u64, most: usize, digits: &[u8]) -> Option<u64>
    requires low { 2 ≤ radix }
    requires high { radix ≤ 36 }
    ensures { result ≡ number_in radix most digits.now }
{
    if digits.is_empty() || digits.len() > most {
        return None;
    }
    let mut total: u64 = 0;
    'digits: for byte in digits {
        let value = digit(*byte);
        if value >= radix {
            return None;
        }
        total = total.checked_mul(radix)?.checked_add(value)?;
    }
    Some(total)
}

// Returns the value of a digit, up to radix 36, or 36 for any other byte.
fn digit(byte: u8) -> u64
    ensures { result ≡ digit_value byte }
{
    let value = match byte {
        b'0'..=b'9' => byte - b'0',
        b'A'..=b'Z' => byte - b'A' + 10,
        b'a'..=b'z' => byte - b'a' + 10,
        _ => 36,
    };
    u64::from(value)
}
