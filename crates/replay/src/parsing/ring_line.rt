//! The line that makes the ring.
ghost use Rattle.std.specs.Prelude.{◌≡◌};
ghost use Rattle.script.specs.Words.{words_of};
ghost use Rattle.replay.specs.requests.RingLine.{ring_of};

use crate::request::Request;
use script::{is_end, next_u32};
use simulator::Shape;

#[tactic(auto, unfolding(crate::specs::requests::RingLine::ring_of))]
pub(super) fn parse_ring(text: &[u8]) -> Option<Request>
    ensures { result ≡ ring_of (words_of text.now) }
{
    let Some((log2, rest)) = next_u32(text) else {
        return None;
    };
    let Some((senders, rest)) = next_u32(rest) else {
        return None;
    };
    let Some((max_batches, rest)) = next_u32(rest) else {
        return None;
    };
    let Some((capacity, rest)) = next_u32(rest) else {
        return None;
    };
    if !is_end(rest) {
        return None;
    }
    let shape = Shape {
        log2,
        senders,
        max_batches,
        capacity,
    };
    Some(Request::Ring(shape))
}
