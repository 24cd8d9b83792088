//! Lists that only clauses see: they have no bytes.
ghost use Rattle.std.specs.Prelude.{◌≡◌, ◌∷◌, ◌++◌, []};

use crate::log::{Log, Numbers, Readings};
use crate::reading::Reading;
use cmdcodec::Raw;
use std::marker::Model;
use std::mem;
use std::snapshot::Snapshot;

/// A list of commands.
#[derive(Drop)]
pub struct Tape {
    log: Snapshot<Log>,
}

impl Model for Tape {
    ghost use Rattle.std.specs.Prelude.{List};
    ghost use Rattle.cmdcodec.specs.declared.raw.Raw.{Raw as RawOf};
    ghost use Rattle.hardware_queue.specs.Tapes.{commands_of};

    ghost Value = { List RawOf };

    ghost view = { λ t. commands_of t.log.value };
}

impl Tape {
    pub fn new() -> Tape
        ensures { result ≡ [] }
    {
        Tape {
            log: Snapshot::of(&Log::Nothing),
        }
    }

    /// Appends a command.
    pub fn push(&mut self, raw: Raw)
        ensures { self.new ≡ self.old ++ raw ∷ [] }
    {
        let earlier = mem::replace(&mut self.log, Snapshot::of(&Log::Nothing));
        self.log = Snapshot::of(&Log::Next(raw, earlier));
    }
}

/// A list of numbers, the newest first.
#[derive(Drop)]
pub struct Positions {
    log: Snapshot<Numbers>,
}

impl Model for Positions {
    ghost use Rattle.std.specs.Prelude.{ℕ, List};
    ghost use Rattle.hardware_queue.specs.Tapes.{numbers_of};

    ghost Value = { List ℕ };

    ghost view = { λ t. numbers_of t.log.value };
}

impl Positions {
    pub fn new() -> Positions
        ensures { result ≡ [] }
    {
        Positions {
            log: Snapshot::of(&Numbers::NoNumber),
        }
    }

    pub fn add(&mut self, number: u64)
        ensures { self.new ≡ number ∷ self.old }
    {
        let earlier = mem::replace(&mut self.log, Snapshot::of(&Numbers::NoNumber));
        self.log = Snapshot::of(&Numbers::Number(number, earlier));
    }
}

/// A list of what was read of the registers, the newest first.
#[derive(Drop)]
pub struct Reads {
    log: Snapshot<Readings>,
}

impl Model for Reads {
    ghost use Rattle.std.specs.Prelude.{List};
    ghost use Rattle.hardware_queue.specs.declared.reading.Reading.{Reading as ReadingOf};
    ghost use Rattle.hardware_queue.specs.Tapes.{readings_of};

    ghost Value = { List ReadingOf };

    ghost view = { λ t. readings_of t.log.value };
}

impl Reads {
    pub fn new() -> Reads
        ensures { result ≡ [] }
    {
        Reads {
            log: Snapshot::of(&Readings::NoReading),
        }
    }

    pub fn add(&mut self, reading: Reading)
        ensures { self.new ≡ reading ∷ self.old }
    {
        let earlier = mem::replace(&mut self.log, Snapshot::of(&Readings::NoReading));
        self.log = Snapshot::of(&Readings::Read(reading, earlier));
    }
}
