//! The lines of the caches.
ghost use Rattle.std.specs.Prelude.{◌≡◌};
ghost use Rattle.script.specs.Words.{words_of};
ghost use Rattle.replay.specs.requests.CacheLines.{fill_of, one_tag, evict_of, lookup_of};

use super::tags::next_tag;
use crate::request::Request;
use caches::Tag;
use script::{is_end, next_u64};

#[tactic(auto, unfolding(crate::specs::requests::CacheLines::fill_of))]
pub(super) fn parse_fill(text: &[u8]) -> Option<Request>
    ensures { result ≡ fill_of (words_of text.now) }
{
    let Some((tag, rest)) = next_tag(text) else {
        return None;
    };
    let Some((value, rest)) = next_u64(rest) else {
        return None;
    };
    if !is_end(rest) {
        return None;
    }
    Some(Request::Fill { tag, value })
}

#[tactic(auto, unfolding(crate::specs::requests::CacheLines::one_tag))]
fn one_tag(text: &[u8]) -> Option<Tag>
    ensures { result ≡ one_tag (words_of text.now) }
{
    let Some((tag, rest)) = next_tag(text) else {
        return None;
    };
    if is_end(rest) { Some(tag) } else { None }
}

#[tactic(auto, unfolding(crate::specs::requests::CacheLines::evict_of))]
pub(super) fn parse_evict(text: &[u8]) -> Option<Request>
    ensures { result ≡ evict_of (words_of text.now) }
{
    let tag = one_tag(text)?;
    Some(Request::Evict { tag })
}

#[tactic(auto, unfolding(crate::specs::requests::CacheLines::lookup_of))]
pub(super) fn parse_lookup(text: &[u8]) -> Option<Request>
    ensures { result ≡ lookup_of (words_of text.now) }
{
    let tag = one_tag(text)?;
    Some(Request::Lookup { tag })
}
