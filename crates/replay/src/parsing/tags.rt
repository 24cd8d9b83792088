//! The tags of cached entries in a line.
ghost use Rattle.std.specs.Prelude.{◌≡◌, option_map};
ghost use Rattle.script.specs.Words.{words_of};
ghost use Rattle.replay.specs.requests.Tags.{ste_of, cd_of, s1_of, s2_of, el2_of, atc_of, tag_of};

use super::numbers::{next_page, next_scope, next_sid, next_ssid, next_substream, next_vmid};
use caches::Tag;
use script::{next_u8, next_word};

#[tactic(auto, unfolding(crate::specs::requests::Tags::ste_of))]
fn next_ste(text: &[u8]) -> Option<(Tag, &[u8])>
    ensures { option_map (λ found. (found.0, words_of found.1.now)) result
        ≡ ste_of (words_of text.now) }
{
    let Some((sid, rest)) = next_sid(text) else {
        return None;
    };
    Some((Tag::Ste { sid }, rest))
}

#[tactic(auto, unfolding(crate::specs::requests::Tags::cd_of))]
fn next_cd(text: &[u8]) -> Option<(Tag, &[u8])>
    ensures { option_map (λ found. (found.0, words_of found.1.now)) result
        ≡ cd_of (words_of text.now) }
{
    let Some((sid, rest)) = next_sid(text) else {
        return None;
    };
    let Some((ssid, rest)) = next_ssid(rest) else {
        return None;
    };
    Some((Tag::Cd { sid, ssid }, rest))
}

#[tactic(auto, unfolding(crate::specs::requests::Tags::s1_of))]
fn next_s1(text: &[u8]) -> Option<(Tag, &[u8])>
    ensures { option_map (λ found. (found.0, words_of found.1.now)) result
        ≡ s1_of (words_of text.now) }
{
    let Some((vmid, rest)) = next_vmid(text) else {
        return None;
    };
    let Some((scope, rest)) = next_scope(rest) else {
        return None;
    };
    let Some((page, rest)) = next_page(rest) else {
        return None;
    };
    let Some((span, rest)) = next_u8(rest) else {
        return None;
    };
    let tag = Tag::S1 {
        vmid,
        scope,
        page,
        span,
    };
    Some((tag, rest))
}

#[tactic(auto, unfolding(crate::specs::requests::Tags::s2_of))]
fn next_s2(text: &[u8]) -> Option<(Tag, &[u8])>
    ensures { option_map (λ found. (found.0, words_of found.1.now)) result
        ≡ s2_of (words_of text.now) }
{
    let Some((vmid, rest)) = next_vmid(text) else {
        return None;
    };
    let Some((page, rest)) = next_page(rest) else {
        return None;
    };
    let Some((span, rest)) = next_u8(rest) else {
        return None;
    };
    Some((Tag::S2 { vmid, page, span }, rest))
}

#[tactic(auto, unfolding(crate::specs::requests::Tags::el2_of))]
fn next_el2(text: &[u8]) -> Option<(Tag, &[u8])>
    ensures { option_map (λ found. (found.0, words_of found.1.now)) result
        ≡ el2_of (words_of text.now) }
{
    let Some((scope, rest)) = next_scope(text) else {
        return None;
    };
    let Some((page, rest)) = next_page(rest) else {
        return None;
    };
    let Some((span, rest)) = next_u8(rest) else {
        return None;
    };
    Some((Tag::El2 { scope, page, span }, rest))
}

#[tactic(auto, unfolding(crate::specs::requests::Tags::atc_of))]
fn next_atc(text: &[u8]) -> Option<(Tag, &[u8])>
    ensures { option_map (λ found. (found.0, words_of found.1.now)) result
        ≡ atc_of (words_of text.now) }
{
    let Some((sid, rest)) = next_sid(text) else {
        return None;
    };
    let Some((ssid, rest)) = next_substream(rest) else {
        return None;
    };
    let Some((page, rest)) = next_page(rest) else {
        return None;
    };
    let Some((span, rest)) = next_u8(rest) else {
        return None;
    };
    let tag = Tag::Atc {
        sid,
        ssid,
        page,
        span,
    };
    Some((tag, rest))
}

/// Parses a tag, and returns it with the rest of the text. Returns None if the text doesn't begin with one.
#[tactic(auto, unfolding(crate::specs::requests::Tags::tag_of))]
pub fn next_tag(text: &[u8]) -> Option<(Tag, &[u8])>
    ensures { option_map (λ found. (found.0, words_of found.1.now)) result
        ≡ tag_of (words_of text.now) }
{
    let Some((kind, rest)) = next_word(text) else {
        return None;
    };
    if kind == b"ste".as_slice() {
        next_ste(rest)
    } else if kind == b"cd".as_slice() {
        next_cd(rest)
    } else if kind == b"s1".as_slice() {
        next_s1(rest)
    } else if kind == b"s2".as_slice() {
        next_s2(rest)
    } else if kind == b"el2".as_slice() {
        next_el2(rest)
    } else if kind == b"atc".as_slice() {
        next_atc(rest)
    } else {
        None
    }
}
