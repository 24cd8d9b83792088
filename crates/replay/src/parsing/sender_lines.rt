//! The lines by which a sender publishes what it reserved, asks, looks and closes.
ghost use Rattle.std.specs.Prelude.{◌≡◌};
ghost use Rattle.script.specs.Words.{words_of};
ghost use Rattle.replay.specs.requests.SenderLines.{publish_of, done_of, look_of, close_of};

use crate::request::Request;
use script::one_number;

#[tactic(auto, unfolding(crate::specs::requests::SenderLines::publish_of))]
pub(super) fn parse_publish(text: &[u8]) -> Option<Request>
    ensures { result ≡ publish_of (words_of text.now) }
{
    let sender = one_number(text)?;
    Some(Request::Publish { sender })
}

#[tactic(auto, unfolding(crate::specs::requests::SenderLines::done_of))]
pub(super) fn parse_done(text: &[u8]) -> Option<Request>
    ensures { result ≡ done_of (words_of text.now) }
{
    let sender = one_number(text)?;
    Some(Request::Done { sender })
}

#[tactic(auto, unfolding(crate::specs::requests::SenderLines::look_of))]
pub(super) fn parse_look(text: &[u8]) -> Option<Request>
    ensures { result ≡ look_of (words_of text.now) }
{
    let sender = one_number(text)?;
    Some(Request::Look { sender })
}

#[tactic(auto, unfolding(crate::specs::requests::SenderLines::close_of))]
pub(super) fn parse_close(text: &[u8]) -> Option<Request>
    ensures { result ≡ close_of (words_of text.now) }
{
    let sender = one_number(text)?;
    Some(Request::Close { sender })
}
