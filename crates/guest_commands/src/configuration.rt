//! The streams whose stream table entries a guest changed.
ghost use Rattle.std.specs.Prelude.{◌≡◌, [], All, IfSome, IfNone, false};
ghost use Rattle.cmdcodec.specs.declared.command.Command.TheVariants.{CfgiSte};
ghost use Rattle.cmdcodec.specs.Spelling.{Spells};
ghost use Rattle.cmdcodec.specs.Words.{encoding};
ghost use Rattle.smmu_features.specs.declared.smmu.Smmu.{Smmu};
ghost use Rattle.smmu_features.specs.Commands.{IsLegalFor};
ghost use Rattle.guest_commands.specs.Configurations.{concerned, IsFirst, IsNext, IsOwnEntry, AreConfigured};

use crate::guest::Guest;
use crate::streams::{Attachment, HostStream};
use caches::{Tag, covers};
use cmdcodec::{Command, Raw, encode, legal_words_spell_one_command};
use std::marker::Model;

/// The streams of the host whose stream table entries a hypervisor writes for a guest's CMD_CFGI_STE or
/// CMD_CFGI_STE_RANGE, to be taken one by one. They borrow the guest: no stream is attached or detached meanwhile.
#[derive(Drop)]
pub struct Configuration<'g> {
    command: Command,
    /// Those that weren't looked at yet.
    streams: &'g [Attachment],
}

impl<'g> Model for Configuration<'g> {
    ghost use Rattle.std.specs.Prelude.{List};
    ghost use Rattle.guest_commands.specs.declared.streams.Attachment.{Attachment as AttachmentValue};
    ghost use Rattle.guest_commands.specs.Configurations.{concerned};

    ghost Value = { List AttachmentValue };

    ghost view = { λ c. concerned c.command c.streams.now };
}

impl<'g> Configuration<'g> {
    /// Takes the next stream, or returns `None` if none is left. The hypervisor writes the host's stream table entry
    /// of it and then sends its `HostStream::invalidate_entry`.
    pub fn next(&mut self) -> Option<Attachment>
        ensures { IsNext self.old result self.new }
    {
        let streams = self.streams;
        match next_concerned(&self.command, streams) {
            None => None,
            Some((stream, rest)) => {
                self.streams = rest;
                Some(stream)
            }
        }
    }
}

/// Returns the first of the streams whose entry the command covers, and those behind it.
fn next_concerned<'g>(
    command: &Command,
    streams: &'g [Attachment],
) -> Option<(Attachment, &'g [Attachment])>
    ensures first { IfSome result (λ found. IsFirst command.now streams.now found.0 found.1.now) }
    ensures none { IfNone result (concerned command.now streams.now ≡ []) }
{
    for (i, stream) in streams.iter().enumerate() {
        if covers(command, &Tag::Ste { sid: stream.sid }) {
            return Some((*stream, &streams[i + 1..]));
        }
    }
    None
}

impl Guest {
    /// Returns the streams of the host whose stream table entries this CMD_CFGI_STE or CMD_CFGI_STE_RANGE of the guest
    /// is for, in the order in which they were attached; for any other command, none.
    pub fn configuration(&self, command: &Command) -> Configuration<'_>
        ensures streams { result ≡ concerned command.now self.now.streams }
        ensures isolated { All (IsOwnEntry self.now) result }
        ensures complete { AreConfigured self.now command.now result }
    {
        Configuration {
            command: *command,
            streams: self.streams(),
        }
    }
}

impl HostStream {
    /// Returns the words of CMD_CFGI_STE for this stream of the host, with Leaf 0.
    pub fn invalidate_entry(self) -> Raw
        ensures words { result ≡ encoding (CfgiSte self.sid false) }
        ensures spelled { Spells result (CfgiSte self.sid false) }
        ensures legal { (smmu : Smmu) → IsLegalFor smmu result }
    {
        legal_words_spell_one_command();
        let sid = self.sid;
        encode(&Command::CfgiSte { sid, leaf: false })
    }
}
