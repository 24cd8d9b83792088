//! What a line of a kernel's log brings.
ghost use Rattle.std.specs.Prelude.{◌≡◌, []};
ghost use Rattle.line_answers.specs.LineWords.{words_of};
ghost use Rattle.words.specs.LogLines.{half_of, last_or, log_line};
ghost use Rattle.words.specs.LogSteps.{counted_behind, is_half};

use crate::line::hex_number;
use line_answers::next_word;

/// What a line of a log brings, by its last word.
#[derive(Clone, Copy, Debug, PartialEq, Eq)]
pub(crate) enum LogLine {
    /// `0x` and 16 hexadecimal digits: half a command, or part of an event.
    Half(u64),
    /// `received:`, which an event's words follow.
    Received,
    /// Anything else.
    Other,
}

impl LogLine {
    pub(crate) fn is_half(self) -> bool
        ensures { result ≡ is_half self }
    {
        matches!(self, LogLine::Half(_))
    }

    /// Returns how this line counts for the next one, given how the line before it did.
    pub(crate) fn behind(self, before: LogLine) -> LogLine
        ensures { result ≡ counted_behind before self }
    {
        match (before, self) {
            (LogLine::Half(_), LogLine::Half(_)) => LogLine::Other,
            (LogLine::Received, LogLine::Half(_)) => LogLine::Received,
            (_, line) => line,
        }
    }
}

/// Parses a line of a log.
#[tactic(auto, unfolding(crate::specs::LogLines::log_line))]
pub(crate) fn log_line(line: &[u8]) -> LogLine
    ensures { result ≡ log_line line.now }
{
    let word = last_word(line);
    match half(word) {
        Some(half) => LogLine::Half(half),
        None if word == b"received:".as_slice() => LogLine::Received,
        None => LogLine::Other,
    }
}

/// Returns the last word of a text, empty if it has none.
fn last_word(text: &[u8]) -> &[u8]
    ensures { result.now ≡ last_or [] (words_of text.now) }
{
    let mut last = b"".as_slice();
    let mut left = text;
    'words: while let Some((word, rest)) = next_word(left) {
        last = word;
        left = rest;
    }
    last
}

/// Parses `0x` and 16 hexadecimal digits of either case.
#[tactic(auto, unfolding(crate::specs::LogLines::half_of))]
fn half(word: &[u8]) -> Option<u64>
    ensures { result ≡ half_of word.now }
{
    if word.len() == 18 {
        hex_number(word)
    } else {
        None
    }
}
