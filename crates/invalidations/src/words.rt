//! The words of the commands of an invalidation, with TTL.
ghost use Rattle.std.specs.Prelude.{◌≡◌, ◌<◌, ◌+◌, ◌*◌, ◌^◌};
ghost use Rattle.cmdcodec.specs.Fields.{field};
ghost use Rattle.invalidations.specs.Targets.{hint_of};
ghost use Rattle.invalidations.specs.Hints.{ttl_of, IsSaid, AreWordsOf, AreNextByAddress, AreNextWords};

use crate::by_address::CommandsByAddress;
use crate::commands::Commands;
use crate::entries::Entries;
use crate::request::Target;
use cmdcodec::{Command, Raw, encode, free_bits_are_ignored};

impl CommandsByAddress {
    /// Takes the next command, as words.
    pub(crate) fn next_words(&mut self) -> Option<Raw>
        ensures words { AreNextByAddress self.old result self.new }
        ensures target { self.new.target ≡ self.old.target }
    {
        let ttl = self.target().ttl();
        match self.take() {
            None => None,
            Some(command) => Some(hinted(&command, ttl)),
        }
    }
}

impl Commands {
    /// Takes the next command, as words with its TTL.
    pub fn next_words(&mut self) -> Option<Raw>
        ensures words { AreNextWords self.old result self.new }
        ensures target { self.new.request.target ≡ self.old.request.target }
    {
        match self.by_address.next_words() {
            Some(raw) => Some(raw),
            None => match self.take_whole() {
                None => None,
                Some(command) => Some(encode(&command)),
            },
        }
    }
}

impl Target {
    /// TTL.
    fn ttl(self) -> u8
        ensures value { result ≡ ttl_of self }
        ensures in_range { result < 4 }
    {
        let Target {
            entries,
            ranged,
            ..
        } = self;
        if ranged { entries.hint() } else { 0 }
    }
}

impl Entries {
    fn hint(self) -> u8
        ensures value { result ≡ hint_of self }
        ensures in_range { result < 4 }
    {
        match self {
            Entries::Leaves { level: Some(level) } => level.get(),
            _ => 0,
        }
    }
}

/// The words that spell a command by address, with TTL.
fn hinted(command: &Command, ttl: u8) -> Raw
    requires said { IsSaid ttl command.now }
    requires in_range { ttl < 4 }
    ensures { AreWordsOf command.now ttl result }
{
    free_bits_are_ignored();
    let raw = encode(command);
    with_ttl(raw, ttl)
}

/// The words with TTL, which is 0 in them.
fn with_ttl(raw: Raw, ttl: u8) -> Raw
    requires free { field raw.hi 9 1 ≡ 0 }
    requires in_range { ttl < 4 }
    ensures { result ≡ record { lo = raw.lo; hi = raw.hi + ttl * 2 ^ 8 } }
{
    let Raw { lo, hi } = raw;
    Raw {
        lo,
        hi: hi + (u64::from(ttl) << 8),
    }
}
