//! Commands for the configuration of one stream. CFGI_CD covers one key, and CFGI_STE and CFGI_CD_ALL one or two where no
//! other substream than 0 has a context descriptor.
ghost use Rattle.std.specs.Prelude.{◌≡◌, ◌<◌, ◌^◌, false, not, is_some, Some, IfSome};
ghost use Rattle.caches.specs.Covers.{covers};
ghost use Rattle.caches.specs.OneStreams.{is_for_stream, is_in, is_of_substream};
ghost use Rattle.caches.specs.Ranks.{part_of};
ghost use Rattle.caches.specs.declared.key.Key.TheVariants.{Configuration};
ghost use Rattle.caches.specs.declared.tag.Tag.{Tag};

use crate::key::Key;
use crate::rank::Rank;
use cmdcodec::{Command, Sid};

/// What a command covers of one stream: its stream table entry, a context descriptor, or both.
#[derive(Clone, Copy)]
pub(crate) struct OneStream {
    pub(crate) ste: Option<Rank>,
    pub(crate) cd: Option<Rank>,
}

impl OneStream {
    /// Returns what `command` covers if it is for one stream. `substreams` says whether there may be context descriptors of
    /// other substreams than 0; then only a command that names its substream is answered.
    pub(crate) fn of(command: &Command, substreams: bool) -> Option<OneStream>
        ensures when { is_some result ≡ is_for_stream substreams command.now }
        ensures covered { IfSome result (λ one. (tag : Tag)
            → (substreams ≡ false → is_of_substream tag ≡ false)
            → covers command.now tag ≡ is_in one tag) }
    {
        match *command {
            Command::CfgiCd { sid, ssid, .. } => Some(OneStream {
                ste: None,
                cd: Some(rank_of(sid, Some(ssid.get()))),
            }),
            Command::CfgiSte { sid, .. } => {
                OneStream::of_substream_0(substreams, Some(rank_of(sid, None)), sid)
            }
            Command::CfgiCdAll { sid } => OneStream::of_substream_0(substreams, None, sid),
            _ => None,
        }
    }

    /// The stream's entry, if given, and its descriptor of substream 0; None if others may have any.
    fn of_substream_0(substreams: bool, ste: Option<Rank>, sid: Sid) -> Option<OneStream>
        ensures when { is_some result ≡ not substreams }
        ensures one { IfSome result (λ one. (substreams ≡ false)
            × (one ≡ record { ste = ste; cd = Some (Configuration sid (Some 0)) })) }
    {
        if substreams {
            None
        } else {
            Some(OneStream {
                ste,
                cd: Some(rank_of(sid, Some(0))),
            })
        }
    }
}

/// The rank of a stream's entry, or of its descriptor of a substream.
fn rank_of(sid: Sid, ssid: Option<u32>) -> Rank
    requires { part_of (Configuration sid ssid) < 2 ^ 22 }
    ensures { result ≡ Configuration sid ssid }
{
    Rank::at(Key::Configuration {
        sid: sid.get(),
        ssid,
    })
}
