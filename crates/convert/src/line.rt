//! What a line brings.
ghost use Rattle.std.specs.Prelude.{◌≡◌};
ghost use Rattle.line_answers.specs.LineWords.{words_of};
ghost use Rattle.words.specs.LineAnswers.{hex_number};
ghost use Rattle.convert.specs.Answers.{brought_by, command_in, command_or_bad, pair_of};

use cmdcodec::Raw;
use line_answers::next_word;
use script::{is_comment, raw};
use words::hex_number;

/// What a line brings.
#[derive(Clone, Copy, Debug, PartialEq, Eq)]
pub(crate) enum Brought {
    /// No word, or a comment.
    Nothing,
    /// A command of the guest, legal or not.
    Command(Raw),
    /// Anything else.
    Bad,
}

impl Brought {
    fn of(raw: Option<Raw>) -> Brought
        ensures { result ≡ command_or_bad raw }
    {
        match raw {
            Some(raw) => Brought::Command(raw),
            None => Brought::Bad,
        }
    }

    /// Returns what a line brings by its first word, which makes it no comment, and the text after it.
    fn named(word: &[u8], rest: &[u8]) -> Brought
        ensures { result ≡ command_in word.now (words_of rest.now) }
    {
        match next_word(rest) {
            None => Brought::of(raw(word)),
            Some((other, rest)) => match next_word(rest) {
                None => Brought::of(pair(word, other)),
                Some(_) => Brought::Bad,
            },
        }
    }

    /// Returns what a line brings.
    pub(crate) fn by(line: &[u8]) -> Brought
        ensures { result ≡ brought_by (words_of line.now) }
    {
        match next_word(line) {
            Some((word, rest)) if !is_comment(word) => Brought::named(word, rest),
            _ => Brought::Nothing,
        }
    }
}

/// Reads two words of `0x` and hexadecimal digits: lo, then hi.
fn pair(lo: &[u8], hi: &[u8]) -> Option<Raw>
    ensures { result ≡ pair_of (hex_number lo.now) (hex_number hi.now) }
{
    Some(Raw {
        lo: hex_number(lo)?,
        hi: hex_number(hi)?,
    })
}
