//! Streams of the host that are leaving.
ghost use Rattle.std.specs.Prelude.{◌≡◌, ◌==◌};
ghost use Rattle.std.specs.List.{list_any};

use cmdcodec::Sid;

/// Whether the stream of the host is leaving.
pub(crate) fn is_leaving(leaving: &[Sid], host: Sid) -> bool
    ensures { result ≡ list_any (λ other. other == host) leaving.now }
{
    leaving.iter().any(|other| *other == host)
}
