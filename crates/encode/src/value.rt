//! The value that the words of a line give a field.
ghost use Rattle.std.specs.Prelude.{◌≡◌, ◌≤◌, ◌<◌, [], ◌∷◌, MatchOption, IfOk, Some, None, length};
ghost use Rattle.encode.specs.Fields.{least_of, most_of};
ghost use Rattle.line_answers.specs.LineWords.{words_of};
ghost use Rattle.encode.specs.Values.{behind, value_said, value_of, is_given, is_of, unknown_word};

use crate::fault::FieldFault;
use crate::field::Field;
use line_answers::next_word;
use script::number;

/// Returns what follows the key in the first word that begins with it, and the text after that word.
fn next_behind<'a>(text: &'a [u8], key: &[u8]) -> Option<(&'a [u8], &'a [u8])>
    ensures { MatchOption result (behind key.now (words_of text.now) ≡ []) (λ found.
        behind key.now (words_of text.now) ≡ found.0.now ∷ behind key.now (words_of found.1.now)) }
{
    let mut left = text;
    'words: while let Some((word, rest)) = next_word(left) {
        if word.starts_with(key) {
            return Some((&word[key.len()..], rest));
        }
        left = rest;
    }
    None
}

/// Returns the value that a number says.
fn value_said(field: Field, number: Option<u64>) -> Result<u64, FieldFault>
    ensures value { result ≡ value_said field number }
    ensures in_range { IfOk result (λ value. (least_of field ≤ value) × (value ≤ most_of field)) }
{
    let Some(number) = number else {
        return Err(FieldFault::OutOfRange(field));
    };
    let unit = field.unit();
    if number % unit != 0 {
        return Err(FieldFault::NoMultiple(field));
    }
    let value = number / unit;
    if field.least() <= value && value <= field.most() {
        Ok(value)
    } else {
        Err(FieldFault::OutOfRange(field))
    }
}

/// Returns the value that a text gives a field.
#[tactic(auto, unfolding(crate::specs::Values::value_of))]
pub(crate) fn value(text: &[u8], field: Field) -> Result<u64, FieldFault>
    ensures value { result ≡ value_of field (words_of text.now) }
    ensures in_range { IfOk result (λ value. (least_of field ≤ value) × (value ≤ most_of field)) }
{
    let key = field.key().as_bytes();
    let Some((digits, rest)) = next_behind(text, key) else {
        return Err(FieldFault::Missing(field));
    };
    match next_behind(rest, key) {
        Some(_) => Err(FieldFault::Twice(field)),
        None => value_said(field, number(digits)),
    }
}

/// Whether a word gives the field.
#[tactic(auto, unfolding(crate::specs::Values::is_given))]
pub(crate) fn is_given(text: &[u8], field: Field) -> bool
    ensures { result ≡ is_given field (words_of text.now) }
{
    next_behind(text, field.key().as_bytes()).is_some()
}

/// Whether a word begins with the key of one of these fields.
fn is_of(fields: &[Field], word: &[u8]) -> bool
    ensures { result ≡ is_of fields.now word.now }
{
    fields
        .iter()
        .any(|field| word.starts_with(field.key().as_bytes()))
}

/// Returns the first word that begins with the key of none of these fields.
pub(crate) fn unknown_word<'a>(fields: &[Field], text: &'a [u8]) -> Option<&'a [u8]>
    ensures { MatchOption result (unknown_word fields.now (words_of text.now) ≡ None) (λ word.
        unknown_word fields.now (words_of text.now) ≡ Some word.now) }
{
    let mut left = text;
    'words: while let Some((word, rest)) = next_word(left) {
        if !is_of(fields, word) {
            return Some(word);
        }
        left = rest;
    }
    None
}
