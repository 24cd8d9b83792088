//! The host's commands of streams.
ghost use Rattle.std.specs.Prelude.{◌≡◌};
ghost use Rattle.guest_commands.specs.Appending.{IsSpelledFor, AreTried};
ghost use Rattle.guest_commands.specs.HostCommands.{accesses, atc_inv, stream_command, stream_words};

use crate::limits::{has_descriptor, has_substream, has_substreams};
use crate::streams::Attachment;
use cmdcodec::{Command, Page, Raw, Sid, Size, Ssid};
use invalidations::Body;
use range_hints::{Ttl, encode_with_hint};
use smmu_features::Smmu;

/// SubstreamID and Global of CMD_ATC_INV with this SSV, or `None` if it is of accesses that the SMMU doesn't have. Where
/// they mean nothing they are 0.
fn accesses(smmu: &Smmu, ssv: bool, ssid: Ssid, global: bool) -> Option<(Ssid, bool)>
    ensures { result ≡ accesses smmu.now ssv ssid global }
{
    let zero = Ssid::new(0).unwrap();
    if !ssv {
        return Some((zero, false));
    }
    if !has_substreams(smmu) {
        return None;
    }
    if global {
        Some((zero, true))
    } else if has_substream(smmu, ssid) {
        Some((ssid, false))
    } else {
        None
    }
}

fn atc_inv(
    sid: Sid,
    ssv: bool,
    size: Size,
    page: Page,
    accesses: Option<(Ssid, bool)>,
) -> Option<Command>
    ensures { result ≡ atc_inv sid ssv size page accesses }
{
    match accesses {
        None => None,
        Some((ssid, global)) => Some(Command::AtcInv {
            sid,
            ssv,
            ssid,
            global,
            size,
            page,
        }),
    }
}

/// Returns the host's command for one of its streams, if the guest's command is of that.
fn stream_command(smmu: &Smmu, command: &Command, stream: &Attachment) -> Option<Command>
    ensures { result ≡ stream_command smmu.now command.now stream.now }
{
    let host = stream.host;
    match *command {
        Command::CfgiCd { sid, ssid, leaf } if stream.sid == sid && has_descriptor(smmu, ssid) => {
            Some(Command::CfgiCd {
                sid: host.sid,
                ssid,
                leaf,
            })
        }
        Command::CfgiCdAll { sid } if stream.sid == sid && smmu.stage_1 => {
            Some(Command::CfgiCdAll { sid: host.sid })
        }
        Command::AtcInv {
            sid,
            ssv,
            ssid,
            global,
            size,
            page,
        } if stream.sid == sid && host.ats && smmu.ats => {
            atc_inv(host.sid, ssv, size, page, accesses(smmu, ssv, ssid, global))
        }
        _ => None,
    }
}

/// The words of the host's command for one of its streams, if the guest's command is of that.
fn stream_words(smmu: &Smmu, command: &Command, stream: &Attachment) -> Option<Raw>
    ensures value { result ≡ stream_words smmu.now command.now stream.now }
    ensures spelled { IsSpelledFor smmu.now command.now stream.now }
{
    match stream_command(smmu, command, stream) {
        None => None,
        Some(host) => Some(encode_with_hint(&host, Ttl::AnyLevel)),
    }
}

/// Appends the host's commands for each of its streams that the guest's command is of, and returns whether they fit.
pub(crate) fn append_of_streams(
    smmu: &Smmu,
    command: &Command,
    streams: &[Attachment],
    body: &mut Body,
) -> bool
    ensures { AreTried smmu.now command.now streams.now body.old.items body.new.items result }
{
    let before = body.len();
    for stream in streams {
        if let Some(words) = stream_words(smmu, command, stream) {
            if body.is_full() {
                body.truncate(before);
                return false;
            }
            body.push(words);
        }
    }
    true
}
