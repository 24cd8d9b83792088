//! Parsing a line into a request.
ghost use Rattle.std.specs.Prelude.{◌≡◌, ◌≤◌, false, [], ◌∷◌, ◌++◌, length, take, option_map, IfOk};
ghost use Rattle.script.specs.Words.{words_of};
ghost use Rattle.schedule.specs.Lines.{two_numbers, three_numbers, given_count, count_of, body_of, ring_of, look_of_sender, look_of, reserve_of, write_of, flip_of, test_of, read_of, advance_of, close_of, ack_of, ask_of, consumer_line, sender_line, plain_line, named};
ghost use Rattle.schedule.specs.ScheduleText.{request_of};

use crate::body::Body;
use crate::kind::Schedule;
use crate::request::{Asked, Request};
use cmdcodec::{Raw, RawList};
use script::{is_end, next_u32, next_word, one_number, raw};
use std::alloc::{AllocError, Global};

/// The most flags that one step goes over.
const MOST_FLAGS: u32 = 64;

/// The request of a line without a COUNT.
fn step(asked: Asked) -> Request
    ensures { result ≡ Request.Step asked false }
{
    Request::Step {
        asked,
        is_counted: false,
    }
}

#[tactic(auto, unfolding(crate::specs::Lines::two_numbers))]
fn two_numbers(text: &[u8]) -> Option<(u32, u32)>
    ensures { result ≡ two_numbers (words_of text.now) }
{
    let (first, rest) = next_u32(text)?;
    Some((first, one_number(rest)?))
}

#[tactic(auto, unfolding(crate::specs::Lines::three_numbers))]
fn three_numbers(text: &[u8]) -> Option<(u32, u32, u32)>
    ensures { result ≡ three_numbers (words_of text.now) }
{
    let (first, rest) = next_u32(text)?;
    let (second, third) = two_numbers(rest)?;
    Some((first, second, third))
}

#[tactic(auto, unfolding(crate::specs::Lines::given_count))]
fn given_count(text: &[u8]) -> Option<u32>
    ensures { result ≡ given_count (words_of text.now) }
{
    let count = one_number(text)?;
    if 1 <= count && count <= MOST_FLAGS {
        Some(count)
    } else {
        None
    }
}

/// Parses a line's COUNT, or 1 if it has none, and returns whether it has one.
#[tactic(auto, unfolding(crate::specs::Lines::count_of))]
fn parse_count(text: &[u8]) -> Option<(u32, bool)>
    ensures { result ≡ count_of (words_of text.now) }
{
    if is_end(text) {
        return Some((1, false));
    }
    Some((given_count(text)?, true))
}

// Adds a command, unless there are 64 already.
fn hand_in(body: &mut RawList, raw: Raw)
    ensures items { body.new.items ≡ take 64 (body.old.items ++ raw ∷ []) }
    ensures fits { length body.new.items ≤ 64 }
{
    if body.is_full() {
        return;
    }
    body.push(raw);
}

/// Parses the words of a text as commands, and returns the first 64. Returns None if a word is none.
fn parse_body(text: &[u8]) -> Option<RawList>
    ensures { result ≡ body_of (words_of text.now) }
{
    let mut body = RawList::new();
    let mut rest = text;
    'words: while let Some((word, after)) = next_word(rest) {
        let Some(command) = raw(word) else {
            return None;
        };
        hand_in(&mut body, command);
        rest = after;
    }
    Some(body)
}

#[tactic(auto, unfolding(crate::specs::Lines::ring_of))]
fn parse_ring(text: &[u8]) -> Option<Request>
    ensures { result ≡ ring_of (words_of text.now) }
{
    let (log2, senders) = two_numbers(text)?;
    Some(Request::Ring { log2, senders })
}

#[tactic(auto, unfolding(crate::specs::Lines::look_of_sender))]
fn parse_look_of_sender(text: &[u8]) -> Option<Request>
    ensures { result ≡ look_of_sender (words_of text.now) }
{
    let sender = one_number(text)?;
    Some(step(Asked::Look { who: Some(sender) }))
}

#[tactic(auto, unfolding(crate::specs::Lines::look_of))]
fn parse_look(text: &[u8]) -> Option<Request>
    ensures { result ≡ look_of (words_of text.now) }
{
    let (who, rest) = next_word(text)?;
    if who != b"c".as_slice() {
        return parse_look_of_sender(text);
    }
    if !is_end(rest) {
        return None;
    }
    Some(step(Asked::Look { who: None }))
}

#[tactic(auto, unfolding(crate::specs::Lines::reserve_of))]
fn parse_reserve(alloc: Global, closes: bool, text: &[u8]) -> Result<Option<Request>, AllocError>
    ensures { IfOk result (λ request. request ≡ reserve_of closes (words_of text.now)) }
{
    let Some((sender, rest)) = next_u32(text) else {
        return Ok(None);
    };
    let Some(commands) = parse_body(rest) else {
        return Ok(None);
    };
    let body = Body::new(alloc, commands)?;
    Ok(Some(step(Asked::Reserve {
        sender,
        body,
        closes,
    })))
}

#[tactic(auto, unfolding(crate::specs::Lines::write_of))]
fn parse_write(text: &[u8]) -> Option<Request>
    ensures { result ≡ write_of (words_of text.now) }
{
    let (sender, slot, half) = three_numbers(text)?;
    Some(step(Asked::Write { sender, slot, half }))
}

#[tactic(auto, unfolding(crate::specs::Lines::flip_of))]
fn parse_flip(text: &[u8]) -> Option<Request>
    ensures { result ≡ flip_of (words_of text.now) }
{
    let (sender, rest) = next_u32(text)?;
    let (slot, rest) = next_u32(rest)?;
    let (count, is_counted) = parse_count(rest)?;
    let asked = Asked::Flip {
        sender,
        slot,
        count,
    };
    Some(Request::Step { asked, is_counted })
}

#[tactic(auto, unfolding(crate::specs::Lines::test_of))]
fn parse_test(text: &[u8]) -> Option<Request>
    ensures { result ≡ test_of (words_of text.now) }
{
    let (slot, rest) = next_u32(text)?;
    let (count, is_counted) = parse_count(rest)?;
    let asked = Asked::Test { slot, count };
    Some(Request::Step { asked, is_counted })
}

#[tactic(auto, unfolding(crate::specs::Lines::read_of))]
fn parse_read(text: &[u8]) -> Option<Request>
    ensures { result ≡ read_of (words_of text.now) }
{
    let (slot, half) = two_numbers(text)?;
    Some(step(Asked::Read { slot, half }))
}

#[tactic(auto, unfolding(crate::specs::Lines::advance_of))]
fn parse_advance(text: &[u8]) -> Option<Request>
    ensures { result ≡ advance_of (words_of text.now) }
{
    let (count, is_counted) = parse_count(text)?;
    let asked = Asked::Advance { count };
    Some(Request::Step { asked, is_counted })
}

#[tactic(auto, unfolding(crate::specs::Lines::close_of))]
fn parse_close(text: &[u8]) -> Option<Request>
    ensures { result ≡ close_of (words_of text.now) }
{
    let sender = one_number(text)?;
    Some(step(Asked::Close { sender }))
}

#[tactic(auto, unfolding(crate::specs::Lines::ack_of))]
fn parse_ack(text: &[u8]) -> Option<Request>
    ensures { result ≡ ack_of (words_of text.now) }
{
    let (sender, number) = two_numbers(text)?;
    Some(step(Asked::Acknowledge { sender, number }))
}

#[tactic(auto, unfolding(crate::specs::Lines::ask_of))]
fn parse_ask(text: &[u8]) -> Option<Request>
    ensures { result ≡ ask_of (words_of text.now) }
{
    let sender = one_number(text)?;
    Some(step(Asked::Ask { sender }))
}

#[tactic(auto, unfolding(crate::specs::Lines::consumer_line))]
fn parse_consumer_line(name: &[u8], rest: &[u8]) -> Option<Request>
    ensures { result ≡ consumer_line name.now (words_of rest.now) }
{
    if name == b"test".as_slice() {
        parse_test(rest)
    } else if name == b"read".as_slice() {
        parse_read(rest)
    } else if name == b"advance".as_slice() {
        parse_advance(rest)
    } else if name == b"ack".as_slice() {
        parse_ack(rest)
    } else {
        None
    }
}

#[tactic(auto, unfolding(crate::specs::Lines::sender_line))]
fn parse_sender_line(name: &[u8], rest: &[u8]) -> Option<Request>
    ensures { result ≡ sender_line name.now (words_of rest.now) }
{
    if name == b"write".as_slice() {
        parse_write(rest)
    } else if name == b"flip".as_slice() {
        parse_flip(rest)
    } else if name == b"close".as_slice() {
        parse_close(rest)
    } else if name == b"ask".as_slice() {
        parse_ask(rest)
    } else {
        parse_consumer_line(name, rest)
    }
}

#[tactic(auto, unfolding(crate::specs::Lines::plain_line))]
fn parse_plain_line(name: &[u8], rest: &[u8]) -> Option<Request>
    ensures { result ≡ plain_line name.now (words_of rest.now) }
{
    if name == b"ring".as_slice() {
        parse_ring(rest)
    } else if name == b"look".as_slice() {
        parse_look(rest)
    } else {
        parse_sender_line(name, rest)
    }
}

/// Parses a line by its first word and the text after it. Returns `Ok(None)` for a bad line.
#[tactic(auto, unfolding(crate::specs::Lines::named))]
pub(crate) fn parse_named(
    alloc: Global,
    name: &[u8],
    rest: &[u8],
) -> Result<Option<Request>, AllocError>
    ensures { IfOk result (λ request. request ≡ named name.now (words_of rest.now)) }
{
    if name == b"reserve".as_slice() {
        parse_reserve(alloc, true, rest)
    } else if name == b"bare".as_slice() {
        parse_reserve(alloc, false, rest)
    } else {
        Ok(parse_plain_line(name, rest))
    }
}

/// Parses a line. Returns `Ok(None)` for a bad line.
///
/// Errors: out of memory for the commands of a line that reserves.
pub fn parse(alloc: Global, line: &[u8]) -> Result<Option<Request>, AllocError>
    ensures { IfOk result (λ request. request ≡ request_of line.now) }
{
    script::parse::<Schedule>(alloc, line)
}
