//! The numbers of a line, one after another.
ghost use Rattle.std.specs.Prelude.{◌≡◌, ◌^◌, option_map};
ghost use Rattle.script.specs.Words.{words_of};
ghost use Rattle.script.specs.Fields.{next_below};
ghost use Rattle.replay.specs.requests.Numbers.{scope_of, substream_of};

use caches::Scope;
use cmdcodec::{Asid, Page, Sid, Ssid, Vmid};
use script::{next_u64, next_word};

#[tactic(auto, unfolding(script::specs::Fields::next_below))]
pub(super) fn next_sid(text: &[u8]) -> Option<(Sid, &[u8])>
    ensures { option_map (λ found. (found.0, words_of found.1.now)) result
        ≡ next_below (2 ^ 32) (words_of text.now) }
{
    let Some((value, rest)) = next_u64(text) else {
        return None;
    };
    let Some(sid) = Sid::new(value) else {
        return None;
    };
    Some((sid, rest))
}

#[tactic(auto, unfolding(script::specs::Fields::next_below))]
pub(super) fn next_ssid(text: &[u8]) -> Option<(Ssid, &[u8])>
    ensures { option_map (λ found. (found.0, words_of found.1.now)) result
        ≡ next_below (2 ^ 20) (words_of text.now) }
{
    let Some((value, rest)) = next_u64(text) else {
        return None;
    };
    let Some(ssid) = Ssid::new(value) else {
        return None;
    };
    Some((ssid, rest))
}

#[tactic(auto, unfolding(script::specs::Fields::next_below))]
pub(super) fn next_vmid(text: &[u8]) -> Option<(Vmid, &[u8])>
    ensures { option_map (λ found. (found.0, words_of found.1.now)) result
        ≡ next_below (2 ^ 16) (words_of text.now) }
{
    let Some((value, rest)) = next_u64(text) else {
        return None;
    };
    let Some(vmid) = Vmid::new(value) else {
        return None;
    };
    Some((vmid, rest))
}

#[tactic(auto, unfolding(script::specs::Fields::next_below))]
pub(super) fn next_asid(text: &[u8]) -> Option<(Asid, &[u8])>
    ensures { option_map (λ found. (found.0, words_of found.1.now)) result
        ≡ next_below (2 ^ 16) (words_of text.now) }
{
    let Some((value, rest)) = next_u64(text) else {
        return None;
    };
    let Some(asid) = Asid::new(value) else {
        return None;
    };
    Some((asid, rest))
}

#[tactic(auto, unfolding(script::specs::Fields::next_below))]
pub(super) fn next_page(text: &[u8]) -> Option<(Page, &[u8])>
    ensures { option_map (λ found. (found.0, words_of found.1.now)) result
        ≡ next_below (2 ^ 52) (words_of text.now) }
{
    let Some((value, rest)) = next_u64(text) else {
        return None;
    };
    let Some(page) = Page::new(value) else {
        return None;
    };
    Some((page, rest))
}

/// Parses the scope of a translation: `g` for all address spaces, or one ASID.
#[tactic(auto, unfolding(crate::specs::requests::Numbers::scope_of, script::specs::Fields::next_below_or))]
pub(super) fn next_scope(text: &[u8]) -> Option<(Scope, &[u8])>
    ensures { option_map (λ found. (found.0, words_of found.1.now)) result
        ≡ scope_of (words_of text.now) }
{
    let Some((word, rest)) = next_word(text) else {
        return None;
    };
    if word == b"g".as_slice() {
        return Some((Scope::Global, rest));
    }
    let Some((asid, rest)) = next_asid(text) else {
        return None;
    };
    Some((Scope::Of(asid), rest))
}

/// Parses a substream: `-` for none, or its number.
#[tactic(auto, unfolding(crate::specs::requests::Numbers::substream_of, script::specs::Fields::next_below_or))]
pub(super) fn next_substream(text: &[u8]) -> Option<(Option<Ssid>, &[u8])>
    ensures { option_map (λ found. (found.0, words_of found.1.now)) result
        ≡ substream_of (words_of text.now) }
{
    let Some((word, rest)) = next_word(text) else {
        return None;
    };
    if word == b"-".as_slice() {
        return Some((None, rest));
    }
    let Some((ssid, rest)) = next_ssid(text) else {
        return None;
    };
    Some((Some(ssid), rest))
}
