//! Parses the words of a line, one after another.
ghost use Rattle.std.specs.Prelude.{◌≡◌, ◌^◌, option_map};
ghost use Rattle.std.specs.List.{list_all};
ghost use Rattle.script.specs.Words.{words_of};
ghost use Rattle.script.specs.Fields.{next_below, next_below_or, is_end, one_number, hex_of, is_comment, is_printable};

use crate::words::{next_word, number};
use cmdcodec::{Raw, from_bytes};

/// Parses the next word as a number below 2^64, and returns it with the rest of the text. Returns None if no word is
/// left or it is no such number.
#[tactic(auto, unfolding(crate::specs::Fields::next_below))]
pub fn next_u64(text: &[u8]) -> Option<(u64, &[u8])>
    ensures { option_map (λ found. (found.0, words_of found.1.now)) result
        ≡ next_below (2 ^ 64) (words_of text.now) }
{
    let (word, rest) = next_word(text)?;
    Some((number(word)?, rest))
}

/// Parses the next word as a number below 2^32, and returns it with the rest of the text. Returns None if no word is
/// left or it is no such number.
#[tactic(auto, unfolding(crate::specs::Fields::next_below))]
pub fn next_u32(text: &[u8]) -> Option<(u32, &[u8])>
    ensures { option_map (λ found. (found.0, words_of found.1.now)) result
        ≡ next_below (2 ^ 32) (words_of text.now) }
{
    let (word, rest) = next_word(text)?;
    let number = u32::try_from(number(word)?).ok()?;
    Some((number, rest))
}

/// Parses the next word as a number below 2^8, and returns it with the rest of the text. Returns None if no word is
/// left or it is no such number.
#[tactic(auto, unfolding(crate::specs::Fields::next_below))]
pub fn next_u8(text: &[u8]) -> Option<(u8, &[u8])>
    ensures { option_map (λ found. (found.0, words_of found.1.now)) result
        ≡ next_below (2 ^ 8) (words_of text.now) }
{
    let (word, rest) = next_word(text)?;
    let number = u8::try_from(number(word)?).ok()?;
    Some((number, rest))
}

/// Parses the next word as a number below `limit`, and returns it with the rest of the text. Returns None if no word is
/// left or it is no such number.
#[tactic(auto, unfolding(crate::specs::Fields::next_below))]
pub fn next_below(limit: u64, text: &[u8]) -> Option<(u64, &[u8])>
    ensures { option_map (λ found. (found.0, words_of found.1.now)) result
        ≡ next_below limit (words_of text.now) }
{
    let (word, rest) = next_word(text)?;
    let number = number(word)?;
    if number < limit {
        Some((number, rest))
    } else {
        None
    }
}

/// Parses the next word as None if it is `mark`, else as a number below `limit`, and returns that with the rest of the
/// text. Returns None if no word is left or it is neither.
#[tactic(auto, unfolding(crate::specs::Fields::next_below_or))]
pub fn next_below_or<'a>(mark: &[u8], limit: u64, text: &'a [u8]) -> Option<(Option<u64>, &'a [u8])>
    ensures { option_map (λ found. (found.0, words_of found.1.now)) result
        ≡ next_below_or mark.now limit (words_of text.now) }
{
    let (word, rest) = next_word(text)?;
    if word == mark {
        return Some((None, rest));
    }
    let (number, rest) = next_below(limit, text)?;
    Some((Some(number), rest))
}

/// Whether no word is left.
pub fn is_end(text: &[u8]) -> bool
    ensures { result ≡ is_end (words_of text.now) }
{
    next_word(text).is_none()
}

/// Parses a text that is one number below 2^32 and nothing more. Returns None for any other.
#[tactic(auto, unfolding(crate::specs::Fields::one_number))]
pub fn one_number(text: &[u8]) -> Option<u32>
    ensures { result ≡ one_number (words_of text.now) }
{
    let (number, rest) = next_u32(text)?;
    if is_end(rest) { Some(number) } else { None }
}

/// Parses a word of 32 hexadecimal digits as the bytes of a command, legal or not. Returns None for any other word.
pub fn raw(word: &[u8]) -> Option<Raw>
    ensures { result ≡ hex_of word.now }
{
    let mut bytes = [0; 16];
    match hex::decode_to_slice(word, &mut bytes) {
        Ok(()) => Some(from_bytes(&bytes)),
        Err(_) => None,
    }
}

/// Whether a word makes its line a comment.
pub fn is_comment(name: &[u8]) -> bool
    ensures { result ≡ is_comment name.now }
{
    !name.is_empty() && name[0] == b'#'
}

/// Whether all bytes of a line are in the range from space to tilde.
pub fn is_text(line: &[u8]) -> bool
    ensures { result ≡ list_all is_printable line.now }
{
    let mut printable = true;
    // No early exit, so that the compiler can look at many bytes at once.
    'bytes: for byte in line {
        printable &= 0x20 <= *byte && *byte <= 0x7e;
    }
    printable
}
