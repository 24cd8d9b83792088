//! The streams that a command line gives.
ghost use Rattle.std.specs.Prelude.{◌≡◌, MatchOption, Some, None};
ghost use Rattle.convert.specs.Guests.{attachment_named, attachment_with, parted_at, sid_named};

use crate::number::clear_number;
use cmdcodec::Sid;
use guest_commands::{Attachment, HostStream};

/// Parts a text at its first `=`.
fn at_equals(text: &str) -> Option<(&str, &str)>
    ensures { MatchOption result (parted_at 61 text.now ≡ None) (λ parts. parted_at 61 text.now
        ≡ Some (parts.0.now, parts.1.now)) }
{
    text.split_once('=')
}

/// Parts a text at its first comma.
fn at_comma(text: &str) -> Option<(&str, &str)>
    ensures { MatchOption result (parted_at 44 text.now ≡ None) (λ parts. parted_at 44 text.now
        ≡ Some (parts.0.now, parts.1.now)) }
{
    text.split_once(',')
}

fn sid(text: &str) -> Option<Sid>
    ensures { result ≡ sid_named text.now }
{
    Sid::new(clear_number(text)?)
}

fn attachment_with(sid: Option<Sid>, host: Option<Sid>, ats: bool) -> Option<Attachment>
    ensures { result ≡ attachment_with sid host ats }
{
    Some(Attachment {
        sid: sid?,
        host: HostStream { sid: host?, ats },
    })
}

/// Reads the guest's stream, `=`, the host's, and `,ats` where its endpoint caches translations.
#[tactic(auto, unfolding(crate::specs::Guests::attachment_named))]
pub(crate) fn attachment(text: &str) -> Option<Attachment>
    ensures { result ≡ attachment_named text.now }
{
    let (guest, host) = at_equals(text)?;
    match at_comma(host) {
        None => attachment_with(sid(guest), sid(host), false),
        Some((stream, "ats")) => attachment_with(sid(guest), sid(stream), true),
        Some(_) => None,
    }
}
