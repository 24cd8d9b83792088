//! The words of a line.
ghost use Rattle.std.specs.Prelude.{◌≡◌, ◌<◌, ◌≤◌, ℕ, [], ◌∷◌, length, slice_index, IfSome, MatchOption, true, false};
ghost use Rattle.line_answers.specs.LineWords.{is_blank, words_of};

/// A space, a tab or a carriage return.
fn is_blank(byte: u8) -> bool
    ensures { result ≡ is_blank byte }
{
    byte == b' ' || byte == b'\t' || byte == b'\r'
}

/// Returns the first word of a text and the rest after it, or None if the text has no word.
///
/// Spaces, tabs and carriage returns separate words. That is this project's choice.
pub fn next_word(text: &[u8]) -> Option<(&[u8], &[u8])>
    ensures words { MatchOption result (words_of text.now ≡ []) (λ found. words_of text.now
        ≡ found.0.now ∷ words_of found.1.now) }
    ensures shorter { IfSome result (λ found. length found.1.now < length text.now) }
{
    let text = without_leading_blanks(text);
    if text.is_empty() {
        return None;
    }
    let end = word_length(text);
    Some((&text[..end], &text[end..]))
}

fn without_leading_blanks(text: &[u8]) -> &[u8]
    ensures words { words_of result.now ≡ words_of text.now }
    ensures first { 0 < length result.now → is_blank (slice_index result.now 0) ≡ false }
    ensures short { length result.now ≤ length text.now }
{
    let mut rest = text;
    'blanks: while !rest.is_empty() && is_blank(rest[0]) {
        rest = &rest[1..];
    }
    rest
}

/// Returns how many bytes come before the first blank.
fn word_length(text: &[u8]) -> usize
    ensures within { result ≤ length text.now }
    ensures none { (k : ℕ) → k < result → is_blank (slice_index text.now k) ≡ false }
    ensures end { result < length text.now → is_blank (slice_index text.now result) ≡ true }
{
    for (i, byte) in text.iter().enumerate() {
        if is_blank(*byte) {
            return i;
        }
    }
    text.len()
}
