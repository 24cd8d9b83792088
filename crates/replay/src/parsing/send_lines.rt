//! The lines that send.
ghost use Rattle.std.specs.Prelude.{◌≡◌, IfOk};
ghost use Rattle.script.specs.Words.{words_of};
ghost use Rattle.script.specs.Fields.{raws_of};
ghost use Rattle.replay.specs.requests.SendLines.{whole_batch, commands_of, inval_of, detach_of};

use super::numbers::{next_asid, next_page, next_sid, next_vmid};
use crate::request::{Body, Content, Request, Sending};
use script::{is_end, next_u32, next_u64, next_word, raw};
use std::alloc::{AllocError, Global};

/// Parses the words of a text as commands. Returns `Ok(None)` if a word is none.
fn parse_body(alloc: Global, text: &[u8]) -> Result<Option<Body>, AllocError>
    ensures { IfOk result (λ body. body ≡ raws_of (words_of text.now)) }
{
    let mut raws = Vec::new(alloc);
    let mut rest = text;
    'words: while let Some((word, after)) = next_word(rest) {
        let Some(command) = raw(word) else {
            return Ok(None);
        };
        raws.push(command)?;
        rest = after;
    }
    Ok(Some(Body::new(raws)))
}

#[tactic(auto, unfolding(crate::specs::requests::SendLines::commands_of))]
pub(super) fn parse_commands(
    alloc: Global,
    closes: bool,
    publishes: bool,
    text: &[u8],
) -> Result<Option<Request>, AllocError>
    ensures { IfOk result (λ request. request ≡ commands_of closes publishes (words_of text.now)) }
{
    let Some((sender, rest)) = next_u32(text) else {
        return Ok(None);
    };
    let Some(body) = parse_body(alloc, rest)? else {
        return Ok(None);
    };
    Ok(Some(Request::Send(Sending {
        sender,
        content: Content::Commands(body),
        closes,
        publishes,
    })))
}

// The request to send a whole batch.
fn whole_batch(sender: u32, content: Content) -> Request
    ensures { result ≡ whole_batch sender content }
{
    Request::Send(Sending {
        sender,
        content,
        closes: true,
        publishes: true,
    })
}

#[tactic(auto, unfolding(crate::specs::requests::SendLines::inval_of))]
pub(super) fn parse_inval(text: &[u8]) -> Option<Request>
    ensures { result ≡ inval_of (words_of text.now) }
{
    let Some((sender, rest)) = next_u32(text) else {
        return None;
    };
    let Some((vmid, rest)) = next_vmid(rest) else {
        return None;
    };
    let Some((asid, rest)) = next_asid(rest) else {
        return None;
    };
    let Some((page, rest)) = next_page(rest) else {
        return None;
    };
    let Some((pages, rest)) = next_u64(rest) else {
        return None;
    };
    if !is_end(rest) {
        return None;
    }
    let range = Content::Range {
        vmid,
        asid,
        page,
        pages,
    };
    Some(whole_batch(sender, range))
}

#[tactic(auto, unfolding(crate::specs::requests::SendLines::detach_of))]
pub(super) fn parse_detach(text: &[u8]) -> Option<Request>
    ensures { result ≡ detach_of (words_of text.now) }
{
    let Some((sender, rest)) = next_u32(text) else {
        return None;
    };
    let Some((sid, rest)) = next_sid(rest) else {
        return None;
    };
    if !is_end(rest) {
        return None;
    }
    Some(whole_batch(sender, Content::Detach { sid }))
}
