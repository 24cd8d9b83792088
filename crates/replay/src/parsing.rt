//! Parsing a line into a request.
ghost use Rattle.std.specs.Prelude.{◌≡◌, IfOk};
ghost use Rattle.script.specs.Words.{words_of};
ghost use Rattle.replay.specs.requests.Whole.{unit_line, sender_line, send_line, plain_line, named};

mod cache_lines;
mod numbers;
mod ring_line;
mod send_lines;
mod sender_lines;
mod tags;
mod unit_lines;

use crate::request::Request;
use cache_lines::{parse_evict, parse_fill, parse_lookup};
use ring_line::parse_ring;
use send_lines::{parse_commands, parse_detach, parse_inval};
use sender_lines::{parse_close, parse_done, parse_look, parse_publish};
use std::alloc::{AllocError, Global};
pub use tags::next_tag;
pub use unit_lines::one_remedy;
use unit_lines::{parse_ack, parse_dump, parse_step};

#[tactic(auto, unfolding(crate::specs::requests::Whole::unit_line))]
fn parse_unit_line(name: &[u8], rest: &[u8]) -> Option<Request>
    ensures { result ≡ unit_line name.now (words_of rest.now) }
{
    if name == b"step".as_slice() {
        parse_step(rest)
    } else if name == b"ack".as_slice() {
        parse_ack(rest)
    } else if name == b"dump".as_slice() {
        parse_dump(rest)
    } else {
        None
    }
}

#[tactic(auto, unfolding(crate::specs::requests::Whole::sender_line))]
fn parse_sender_line(name: &[u8], rest: &[u8]) -> Option<Request>
    ensures { result ≡ sender_line name.now (words_of rest.now) }
{
    if name == b"publish".as_slice() {
        parse_publish(rest)
    } else if name == b"done".as_slice() {
        parse_done(rest)
    } else if name == b"look".as_slice() {
        parse_look(rest)
    } else if name == b"close".as_slice() {
        parse_close(rest)
    } else {
        parse_unit_line(name, rest)
    }
}

#[tactic(auto, unfolding(crate::specs::requests::Whole::send_line))]
fn parse_send_line(name: &[u8], rest: &[u8]) -> Option<Request>
    ensures { result ≡ send_line name.now (words_of rest.now) }
{
    if name == b"inval".as_slice() {
        parse_inval(rest)
    } else if name == b"detach".as_slice() {
        parse_detach(rest)
    } else {
        parse_sender_line(name, rest)
    }
}

#[tactic(auto, unfolding(crate::specs::requests::Whole::plain_line))]
fn parse_plain_line(name: &[u8], rest: &[u8]) -> Option<Request>
    ensures { result ≡ plain_line name.now (words_of rest.now) }
{
    if name == b"ring".as_slice() {
        parse_ring(rest)
    } else if name == b"fill".as_slice() {
        parse_fill(rest)
    } else if name == b"evict".as_slice() {
        parse_evict(rest)
    } else if name == b"lookup".as_slice() {
        parse_lookup(rest)
    } else {
        parse_send_line(name, rest)
    }
}

/// Parses a line by its first word and the text after it. Returns `Ok(None)` for a bad line.
#[tactic(auto, unfolding(crate::specs::requests::Whole::named))]
pub(crate) fn parse_named(
    alloc: Global,
    name: &[u8],
    rest: &[u8],
) -> Result<Option<Request>, AllocError>
    ensures { IfOk result (λ request. request ≡ named name.now (words_of rest.now)) }
{
    if name == b"send".as_slice() {
        parse_commands(alloc, true, true, rest)
    } else if name == b"bare".as_slice() {
        parse_commands(alloc, false, true, rest)
    } else if name == b"open".as_slice() {
        parse_commands(alloc, true, false, rest)
    } else if name == b"openbare".as_slice() {
        parse_commands(alloc, false, false, rest)
    } else {
        Ok(parse_plain_line(name, rest))
    }
}
