//! Parsing a line of a log.
ghost use Rattle.std.specs.Prelude.{◌≡◌};
ghost use Rattle.script.specs.Words.{words_of};
ghost use Rattle.trace.specs.Requests.{only_number, walk_of, fill_of, use_of, end_of};
ghost use Rattle.trace.specs.Requests.{command_of, ack_of, value_of, used_of};
ghost use Rattle.trace.specs.Requests.{conduct_named, plain_conduct, conduct_of, did_of};
ghost use Rattle.trace.specs.Requests.{named, request_from, request_of};

use crate::request::{Conduct, Request};
use replay::{next_tag, one_remedy};
use script::{is_comment, is_end, is_text, next_u32, next_u64, next_word, number, raw};

#[tactic(auto, unfolding(crate::specs::Requests::only_number))]
fn only_number(text: &[u8]) -> Option<u64>
    ensures { result ≡ only_number (words_of text.now) }
{
    let (number, rest) = next_u64(text)?;
    if is_end(rest) { Some(number) } else { None }
}

#[tactic(auto, unfolding(crate::specs::Requests::walk_of))]
fn parse_walk(text: &[u8]) -> Option<Request>
    ensures { result ≡ walk_of (words_of text.now) }
{
    let number = only_number(text)?;
    Some(Request::Walk { number })
}

#[tactic(auto, unfolding(crate::specs::Requests::fill_of))]
fn parse_fill(text: &[u8]) -> Option<Request>
    ensures { result ≡ fill_of (words_of text.now) }
{
    let Some((number, rest)) = next_u64(text) else {
        return None;
    };
    let Some((tag, rest)) = next_tag(rest) else {
        return None;
    };
    let Some((value, rest)) = next_u64(rest) else {
        return None;
    };
    if !is_end(rest) {
        return None;
    }
    Some(Request::Fill { number, tag, value })
}

#[tactic(auto, unfolding(crate::specs::Requests::use_of))]
fn parse_use(text: &[u8]) -> Option<Request>
    ensures { result ≡ use_of (words_of text.now) }
{
    let Some((number, rest)) = next_u64(text) else {
        return None;
    };
    let Some((tag, rest)) = next_tag(rest) else {
        return None;
    };
    if !is_end(rest) {
        return None;
    }
    Some(Request::Use { number, tag })
}

#[tactic(auto, unfolding(crate::specs::Requests::end_of))]
fn parse_end(text: &[u8]) -> Option<Request>
    ensures { result ≡ end_of (words_of text.now) }
{
    let number = only_number(text)?;
    Some(Request::End { number })
}

#[tactic(auto, unfolding(crate::specs::Requests::command_of))]
fn parse_command(text: &[u8]) -> Option<Request>
    ensures { result ≡ command_of (words_of text.now) }
{
    let (word, rest) = next_word(text)?;
    let raw = raw(word)?;
    if is_end(rest) {
        Some(Request::Command(raw))
    } else {
        None
    }
}

#[tactic(auto, unfolding(crate::specs::Requests::ack_of))]
fn parse_ack(text: &[u8]) -> Option<Request>
    ensures { result ≡ ack_of (words_of text.now) }
{
    let (gerrorn, rest) = next_u32(text)?;
    let remedy = one_remedy(rest)?;
    Some(Request::Acknowledge { gerrorn, remedy })
}

#[tactic(auto, unfolding(crate::specs::Requests::value_of))]
fn value_of(word: &[u8]) -> Option<u64>
    ensures { result ≡ value_of word.now }
{
    let key = b"value=".as_slice();
    if word.starts_with(key) {
        number(&word[key.len()..])
    } else {
        None
    }
}

#[tactic(auto, unfolding(crate::specs::Requests::used_of))]
fn parse_used(text: &[u8]) -> Option<Conduct>
    ensures { result ≡ used_of (words_of text.now) }
{
    let (word, rest) = next_word(text)?;
    let value = value_of(word)?;
    if is_end(rest) {
        Some(Conduct::Used { value })
    } else {
        None
    }
}

#[tactic(auto, unfolding(crate::specs::Requests::conduct_named))]
fn conduct_named(word: &[u8]) -> Option<Conduct>
    ensures { result ≡ conduct_named word.now }
{
    if word == b"filled".as_slice() {
        Some(Conduct::Filled)
    } else if word == b"overtaken".as_slice() {
        Some(Conduct::Overtaken)
    } else if word == b"missed".as_slice() {
        Some(Conduct::Missed)
    } else if word == b"completed".as_slice() {
        Some(Conduct::Completed)
    } else if word == b"waited".as_slice() {
        Some(Conduct::Waited)
    } else {
        None
    }
}

fn plain_conduct(word: &[u8], rest: &[u8]) -> Option<Conduct>
    ensures { result ≡ plain_conduct word.now (words_of rest.now) }
{
    if is_end(rest) {
        conduct_named(word)
    } else {
        None
    }
}

#[tactic(auto, unfolding(crate::specs::Requests::conduct_of))]
fn parse_conduct(text: &[u8]) -> Option<Conduct>
    ensures { result ≡ conduct_of (words_of text.now) }
{
    let (word, rest) = next_word(text)?;
    if word == b"used".as_slice() {
        parse_used(rest)
    } else {
        plain_conduct(word, rest)
    }
}

#[tactic(auto, unfolding(crate::specs::Requests::did_of))]
fn parse_did(text: &[u8]) -> Option<Request>
    ensures { result ≡ did_of (words_of text.now) }
{
    let conduct = parse_conduct(text)?;
    Some(Request::Did(conduct))
}

#[tactic(auto, unfolding(crate::specs::Requests::named))]
fn parse_named(name: &[u8], rest: &[u8]) -> Option<Request>
    ensures { result ≡ named name.now (words_of rest.now) }
{
    if name == b"walk".as_slice() {
        parse_walk(rest)
    } else if name == b"fill".as_slice() {
        parse_fill(rest)
    } else if name == b"use".as_slice() {
        parse_use(rest)
    } else if name == b"end".as_slice() {
        parse_end(rest)
    } else if name == b"command".as_slice() {
        parse_command(rest)
    } else if name == b"ack".as_slice() {
        parse_ack(rest)
    } else if name == b"did".as_slice() {
        parse_did(rest)
    } else {
        None
    }
}

fn parse_words(line: &[u8]) -> Option<Request>
    ensures { result ≡ request_from (words_of line.now) }
{
    match next_word(line) {
        Some((name, rest)) if !is_comment(name) => parse_named(name, rest),
        _ => Some(Request::Nothing),
    }
}

/// Parses a line of a log. Returns None for a bad line.
#[tactic(auto, unfolding(crate::specs::Requests::request_of))]
pub(crate) fn parse(line: &[u8]) -> Option<Request>
    ensures { result ≡ request_of line.now }
{
    if is_text(line) {
        parse_words(line)
    } else {
        None
    }
}
