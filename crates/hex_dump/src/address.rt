//! Parses the address of a line.
ghost use Rattle.std.specs.Prelude.{◌≡◌, ◌<◌, length, true};
ghost use Rattle.line_answers.specs.LineWords.{words_of};
ghost use Rattle.hex_dump.specs.Dumps.{address_of, data_words, has_colon, is_symbol, without_colon, without_prefix};

use line_answers::next_word;
use script::{hex_number, is_hex};

/// Whether a word ends with a colon.
pub(crate) fn has_colon(word: &[u8]) -> bool
    ensures value { result ≡ has_colon word.now }
    ensures some { result ≡ true → 0 < length word.now }
{
    !word.is_empty() && word[word.len() - 1] == b':'
}

fn without_colon(word: &[u8]) -> &[u8]
    ensures { result.now ≡ without_colon word.now }
{
    if has_colon(word) {
        &word[..word.len() - 1]
    } else {
        word
    }
}

fn without_prefix(word: &[u8]) -> &[u8]
    ensures { result.now ≡ without_prefix word.now }
{
    if is_hex(word) { &word[2..] } else { word }
}

/// Parses the first word of a line as its address: 1 to 16 hexadecimal digits.
pub(crate) fn address_of(word: &[u8]) -> Option<u64>
    ensures { result ≡ address_of word.now }
{
    hex_number(16, without_prefix(without_colon(word)))
}

/// Whether a word is a name that gdb writes behind an address.
fn is_symbol(word: &[u8]) -> bool
    ensures { result ≡ is_symbol word.now }
{
    word.len() >= 3 && word[0] == b'<' && word[word.len() - 2] == b'>' && has_colon(word)
}

/// Returns the text without a name that comes behind an address without a colon.
pub(crate) fn data_text(colon: bool, text: &[u8]) -> &[u8]
    ensures { words_of result.now ≡ data_words colon (words_of text.now) }
{
    match next_word(text) {
        Some((word, rest)) if !colon && is_symbol(word) => rest,
        _ => text,
    }
}
