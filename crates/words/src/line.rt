//! The answer to one line.
ghost use Rattle.std.specs.Prelude.{◌≡◌, ◌++◌, ◌∷◌, IfOk, OnOk, [], string_bytes};
ghost use Rattle.script.specs.Words.{is_hex};
ghost use Rattle.line_answers.specs.LineWords.{words_of};
ghost use Rattle.decode.specs.CommandText.{words_text};
ghost use Rattle.decode.specs.DecodeText.{decode_text};
ghost use Rattle.words.specs.LineAnswers.{answer_of, bad_line, command_answer, hex_number, one_word, told, two_words};

use cmdcodec::Raw;
use decode::{decode_bytes, say_command};
use line_answers::next_word;
use script::{is_comment, number, raw};
use std::alloc::{AllocError, Global};

fn end_line(reply: &mut String) -> Result<(), AllocError>
    ensures { OnOk result (string_bytes reply.new ≡ string_bytes reply.old ++ 10 ∷ []) }
{
    reply.push_str("\n")
}

/// Appends what the words of a command mean, as a line.
pub(crate) fn say_raw(raw: Raw, reply: &mut String) -> Result<bool, AllocError>
    ensures text { OnOk result (string_bytes reply.new
        ≡ string_bytes reply.old ++ (told (words_text raw)).text) }
    ensures good { IfOk result (λ is_good. is_good ≡ (told (words_text raw)).is_good) }
{
    let is_legal = say_command(raw, reply)?;
    end_line(reply)?;
    Ok(is_legal)
}

pub(crate) fn say_bad_line(reply: &mut String) -> Result<bool, AllocError>
    ensures text { OnOk result (string_bytes reply.new ≡ string_bytes reply.old ++ bad_line.text) }
    ensures good { IfOk result (λ is_good. is_good ≡ bad_line.is_good) }
{
    reply.push_str("bad line\n")?;
    Ok(false)
}

fn say_bad_word(alloc: Global, word: &[u8], reply: &mut String) -> Result<bool, AllocError>
    ensures text { OnOk result (string_bytes reply.new
        ≡ string_bytes reply.old ++ (told (decode_text word.now)).text) }
    ensures good { IfOk result (λ is_good. is_good ≡ (told (decode_text word.now)).is_good) }
{
    let (text, is_legal) = decode_bytes(alloc, word)?;
    reply.push_str(text.as_str())?;
    end_line(reply)?;
    Ok(is_legal)
}

/// Answers the only word of a line.
#[tactic(auto, unfolding(crate::specs::LineAnswers::one_word))]
fn say_word(alloc: Global, word: &[u8], reply: &mut String) -> Result<bool, AllocError>
    ensures text { OnOk result (string_bytes reply.new
        ≡ string_bytes reply.old ++ (one_word word.now).text) }
    ensures good { IfOk result (λ is_good. is_good ≡ (one_word word.now).is_good) }
{
    match raw(word) {
        Some(raw) => say_raw(raw, reply),
        None => say_bad_word(alloc, word, reply),
    }
}

fn is_hex(word: &[u8]) -> bool
    ensures { result ≡ is_hex word.now }
{
    word.len() >= 2 && word[0] == b'0' && word[1] == b'x'
}

/// Parses `0x` and 1 to 16 hexadecimal digits of either case.
#[tactic(auto, unfolding(crate::specs::LineAnswers::hex_number))]
pub fn hex_number(word: &[u8]) -> Option<u64>
    ensures { result ≡ hex_number word.now }
{
    if is_hex(word) { number(word) } else { None }
}

/// Answers the two words of a line: lo, then hi.
#[tactic(auto, unfolding(crate::specs::LineAnswers::two_words))]
fn say_pair(lo: &[u8], hi: &[u8], reply: &mut String) -> Result<bool, AllocError>
    ensures text { OnOk result (string_bytes reply.new
        ≡ string_bytes reply.old ++ (two_words lo.now hi.now).text) }
    ensures good { IfOk result (λ is_good. is_good ≡ (two_words lo.now hi.now).is_good) }
{
    match (hex_number(lo), hex_number(hi)) {
        (Some(lo), Some(hi)) => say_raw(Raw { lo, hi }, reply),
        _ => say_bad_line(reply),
    }
}

/// Answers a line by its first word, which makes it no comment, and the text after it.
fn say_named(
    alloc: Global,
    word: &[u8],
    rest: &[u8],
    reply: &mut String,
) -> Result<bool, AllocError>
    ensures text { OnOk result (string_bytes reply.new
        ≡ string_bytes reply.old ++ (command_answer word.now (words_of rest.now)).text) }
    ensures good { IfOk result (λ is_good. is_good
        ≡ (command_answer word.now (words_of rest.now)).is_good) }
{
    match next_word(rest) {
        None => say_word(alloc, word, reply),
        Some((other, rest)) => match next_word(rest) {
            None => say_pair(word, other, reply),
            Some(_) => say_bad_line(reply),
        },
    }
}

/// Answers a line, and returns whether it is a legal command or skipped.
#[tactic(auto, unfolding(crate::specs::LineAnswers::answer_of))]
pub(crate) fn say_line(alloc: Global, line: &[u8], reply: &mut String) -> Result<bool, AllocError>
    ensures text { OnOk result (string_bytes reply.new
        ≡ string_bytes reply.old ++ (answer_of line.now).text) }
    ensures good { IfOk result (λ is_good. is_good ≡ (answer_of line.now).is_good) }
{
    match next_word(line) {
        Some((word, rest)) if !is_comment(word) => say_named(alloc, word, rest, reply),
        _ => Ok(true),
    }
}
