//! Parses the data words of a line.
ghost use Rattle.std.specs.Prelude.{◌≡◌, ◌<◌, ◌^◌, IfSome, false};
ghost use Rattle.line_answers.specs.LineWords.{words_of};
ghost use Rattle.script.specs.Fields.{is_end};
ghost use Rattle.hex_dump.specs.Slots.{byte_pair, doubleword, four_bytes, number_and_words, part, paired, slot_in, slot_of, two_bytes};

use crate::digits::word_number;
use crate::layout::Layout;
use cmdcodec::Raw;
use line_answers::next_word;

/// Whether no word is left.
pub(crate) fn is_end(text: &[u8]) -> bool
    ensures { result ≡ is_end (words_of text.now) }
{
    next_word(text).is_none()
}

/// Parses the next word as so many digits, and returns the text after it too. So do the others.
fn part(prefixed: bool, count: usize, text: &[u8]) -> Option<(u64, &[u8])>
    ensures value { number_and_words result ≡ part prefixed count (words_of text.now) }
    ensures small { IfSome result (λ found. found.0 < 16 ^ count) }
{
    let (word, rest) = next_word(text)?;
    Some((word_number(prefixed, count, word)?, rest))
}

fn byte(text: &[u8]) -> Option<(u8, &[u8])>
    ensures { number_and_words result ≡ part false 2 (words_of text.now) }
{
    let (number, rest) = part(false, 2, text)?;
    Some((number as u8, rest))
}

fn byte_pair(text: &[u8]) -> Option<(u16, &[u8])>
    ensures { number_and_words result ≡ byte_pair (words_of text.now) }
{
    let (number, rest) = part(false, 4, text)?;
    Some(((number / 256 + number % 256 * 256) as u16, rest))
}

fn two_single_bytes(text: &[u8]) -> Option<(u16, &[u8])>
    ensures { number_and_words result ≡ paired 8 (part false 2) (words_of text.now) }
{
    let (low, rest) = byte(text)?;
    let (high, rest) = byte(rest)?;
    Some((u16::from(low) + u16::from(high) * 0x100, rest))
}

fn two_bytes(pairs: bool, text: &[u8]) -> Option<(u16, &[u8])>
    ensures { number_and_words result ≡ two_bytes pairs (words_of text.now) }
{
    if pairs {
        byte_pair(text)
    } else {
        two_single_bytes(text)
    }
}

fn four_bytes(pairs: bool, text: &[u8]) -> Option<(u32, &[u8])>
    ensures { number_and_words result ≡ four_bytes pairs (words_of text.now) }
{
    let (low, rest) = two_bytes(pairs, text)?;
    let (high, rest) = two_bytes(pairs, rest)?;
    Some((u32::from(low) + u32::from(high) * 0x1_0000, rest))
}

fn eight_bytes(pairs: bool, text: &[u8]) -> Option<(u64, &[u8])>
    ensures { number_and_words result ≡ paired 32 (four_bytes pairs) (words_of text.now) }
{
    let (low, rest) = four_bytes(pairs, text)?;
    let (high, rest) = four_bytes(pairs, rest)?;
    Some((u64::from(low) + u64::from(high) * 0x1_0000_0000, rest))
}

fn two_words(prefixed: bool, text: &[u8]) -> Option<(u64, &[u8])>
    ensures { number_and_words result ≡ paired 32 (part prefixed 8) (words_of text.now) }
{
    let (low, rest) = part(prefixed, 8, text)?;
    let (high, rest) = part(prefixed, 8, rest)?;
    Some((low + high * 0x1_0000_0000, rest))
}

fn doubleword(layout: Layout, text: &[u8]) -> Option<(u64, &[u8])>
    ensures { number_and_words result ≡ doubleword layout (words_of text.now) }
{
    match layout {
        Layout::Bytes => eight_bytes(false, text),
        Layout::BytePairs => eight_bytes(true, text),
        Layout::Words { prefixed } => two_words(prefixed, text),
        Layout::Doublewords { prefixed } => part(prefixed, 16, text),
    }
}

fn slot_in(layout: Layout, text: &[u8]) -> Option<Raw>
    ensures { result ≡ slot_in layout (words_of text.now) }
{
    let (lo, rest) = doubleword(layout, text)?;
    let (hi, rest) = doubleword(layout, rest)?;
    if !layout.is_prefixed() || is_end(rest) {
        Some(Raw { lo, hi })
    } else {
        None
    }
}

/// Parses the words behind the address of a line.
pub(crate) fn slot_of(colon: bool, text: &[u8]) -> Option<Raw>
    ensures { result ≡ slot_of colon (words_of text.now) }
{
    let (word, _) = next_word(text)?;
    slot_in(Layout::of(colon, word)?, text)
}
