//! Converts a beginning of a guest's commands into the body of a batch.
ghost use Rattle.std.specs.Prelude.{◌≡◌, ◌≤◌, All, length, take};
ghost use Rattle.cmdcodec.specs.Bodies.{IsBody};
ghost use Rattle.smmu_features.specs.Commands.{IsLegalFor};
ghost use Rattle.guest_commands.specs.Appending.{IsTried, IsPutOr};
ghost use Rattle.guest_commands.specs.Conversions.{batch_of, IsConverted};
ghost use Rattle.guest_commands.specs.Theorems.{IsIsolated, IsSupported, IsReachedBy};

use crate::ended::{Ended, Stop};
use crate::guest::Guest;
use crate::stream_commands::append_of_streams;
use batch::BorrowedBatch;
use cmdcodec::{Command, Raw, legal_words_spell_one_command};
use invalidations::{Body, served_words_are_legal};
use range_hints::{Ttl, decode_with_hint, encode_with_hint};
use std::marker::Model;

/// The host's commands for a beginning of a guest's. They borrow the guest: no stream is attached or detached before they
/// are sent or let go.
#[derive(Drop)]
pub struct Converted<'g> {
    guest: &'g Guest,
    commands: Body,
    taken: usize,
    ended: Ended,
}

impl<'g> Model for Converted<'g> {
    ghost use Rattle.std.specs.Prelude.{◌≤◌, length};
    ghost use Rattle.cmdcodec.specs.Bodies.{IsBody};
    ghost use Rattle.guest_commands.specs.Conversions.{Conversion};

    ghost Value = { Conversion };

    ghost view = { λ c. record { guest = c.guest.now; commands = c.commands.items; taken = c.taken; ended = c.ended } };

    ghost invariant = { λ c. 1 ≤ length c.commands.items → IsBody c.commands.items };
}

impl<'g> Converted<'g> {
    /// Returns the guest whose commands they are.
    pub fn guest(&self) -> &'g Guest
        ensures { result.now ≡ self.now.guest }
    {
        self.guest
    }

    /// Returns the host's commands, at most 63, in the guest's order.
    pub fn commands(&self) -> &[Raw]
        ensures { result.now ≡ self.now.commands }
    {
        self.commands.as_slice()
    }

    /// Returns the host's commands as a batch, or `None` if there are none.
    pub fn batch(&self) -> Option<BorrowedBatch<'_>>
        ensures { result ≡ batch_of self.now.commands }
    {
        match BorrowedBatch::new(self.commands.as_slice()) {
            Ok(batch) => Some(batch),
            Err(_) => None,
        }
    }

    /// Returns how many of the guest's commands they are for.
    pub fn taken(&self) -> usize
        ensures { result ≡ self.now.taken }
    {
        self.taken
    }

    /// Returns why no more of the guest's commands were taken.
    pub fn ended(&self) -> Ended
        ensures { result ≡ self.now.ended }
    {
        self.ended
    }
}

impl Guest {
    /// Appends the host's commands for a command of the guest, and returns whether they fit.
    fn append(&self, command: &Command, ttl: Ttl, body: &mut Body) -> bool
        ensures { IsTried self.now command.now ttl body.old.items body.new.items result }
    {
        legal_words_spell_one_command();
        served_words_are_legal();
        let streams = self.streams();
        match self.tlb_command(command, ttl) {
            None => append_of_streams(self.smmu(), command, streams, body),
            Some((host, ttl)) => {
                if body.is_full() {
                    return false;
                }
                body.push(encode_with_hint(&host, ttl));
                true
            }
        }
    }

    /// Converts a command and appends the host's, or returns why it isn't taken.
    fn put(&self, raw: Raw, body: &mut Body) -> Option<Ended>
        ensures { IsPutOr self.now raw body.old.items body.new.items result }
    {
        legal_words_spell_one_command();
        let (command, ttl) = match decode_with_hint(raw) {
            Ok(hinted) => hinted,
            Err(ill) => return Some(Ended::At(Stop::Illegal(ill))),
        };
        if let Some(stop) = Stop::of(&command) {
            return Some(Ended::At(stop));
        }
        if self.append(&command, ttl, body) {
            None
        } else {
            Some(Ended::Full)
        }
    }

    /// Converts as many of the guest's commands from the first on as it can.
    pub fn convert_all(&self, raws: &[Raw]) -> Converted<'_>
        ensures converted { IsConverted self.now raws.now result }
        ensures legal { All (IsLegalFor self.now.smmu) result.commands }
        ensures isolated { All (IsIsolated self.now) result.commands }
        ensures supported { All (IsSupported self.now.smmu) result.commands }
        ensures complete { All (IsReachedBy self.now result.commands) (take result.taken raws.now) }
        ensures body { 1 ≤ length result.commands → IsBody result.commands }
        ensures moves_on { result.ended ≡ Ended.Full → 1 ≤ length result.commands }
    {
        let mut body = Body::new();
        for (taken, raw) in raws.iter().enumerate() {
            if let Some(ended) = self.put(*raw, &mut body) {
                return Converted {
                    guest: self,
                    commands: body,
                    taken,
                    ended,
                };
            }
        }
        Converted {
            guest: self,
            commands: body,
            taken: raws.len(),
            ended: Ended::End,
        }
    }
}
