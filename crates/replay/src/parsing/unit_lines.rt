//! The lines of the unit.
ghost use Rattle.std.specs.Prelude.{◌≡◌};
ghost use Rattle.script.specs.Words.{words_of};
ghost use Rattle.replay.specs.requests.UnitLines.{counted_steps, steps_of, remedy_of, ack_of, dump_of};

use crate::request::Request;
use engine::Remedy;
use script::{is_end, next_u32, next_u64, next_word};

/// The most steps that one line may ask for.
const MOST_STEPS: u64 = 1_000_000;

#[tactic(auto, unfolding(crate::specs::requests::UnitLines::counted_steps))]
fn parse_count(text: &[u8]) -> Option<Request>
    ensures { result ≡ counted_steps (words_of text.now) }
{
    let (count, rest) = next_u64(text)?;
    if 1 <= count && count <= MOST_STEPS && is_end(rest) {
        Some(Request::Step { count })
    } else {
        None
    }
}

#[tactic(auto, unfolding(crate::specs::requests::UnitLines::steps_of))]
pub(super) fn parse_step(text: &[u8]) -> Option<Request>
    ensures { result ≡ steps_of (words_of text.now) }
{
    if is_end(text) {
        Some(Request::Step { count: 1 })
    } else {
        parse_count(text)
    }
}

/// Parses a text that is `retry` or `replace` and nothing more. Returns None for any other.
#[tactic(auto, unfolding(crate::specs::requests::UnitLines::remedy_of))]
pub fn one_remedy(text: &[u8]) -> Option<Remedy>
    ensures { result ≡ remedy_of (words_of text.now) }
{
    let (word, rest) = next_word(text)?;
    if !is_end(rest) {
        None
    } else if word == b"retry".as_slice() {
        Some(Remedy::Retry)
    } else if word == b"replace".as_slice() {
        Some(Remedy::Replace)
    } else {
        None
    }
}

#[tactic(auto, unfolding(crate::specs::requests::UnitLines::ack_of))]
pub(super) fn parse_ack(text: &[u8]) -> Option<Request>
    ensures { result ≡ ack_of (words_of text.now) }
{
    let (gerrorn, rest) = next_u32(text)?;
    let remedy = one_remedy(rest)?;
    Some(Request::Acknowledge { gerrorn, remedy })
}

#[tactic(auto, unfolding(crate::specs::requests::UnitLines::dump_of))]
pub(super) fn parse_dump(text: &[u8]) -> Option<Request>
    ensures { result ≡ dump_of (words_of text.now) }
{
    if is_end(text) {
        Some(Request::Dump)
    } else {
        None
    }
}
