//! Translation table walks.
ghost use Rattle.std.specs.Prelude.{◌≡◌, ◌≤◌, ◌<◌, ◌+◌, ◌-◌, ◌%◌, ◌^◌};
ghost use Rattle.transactions.specs.Walks.{walk_number, began_of, AreNumbers};

use caches::CacheFault;
use std::marker::Model;
use thiserror::Error;

/// How many numbers a unit's walks have: a unit's number of 8 bits and one of these fit into a word
/// of 64 bits. This project's choice.
pub(crate) const NUMBERS: u64 = 72_057_594_037_927_936;

/// A translation table walk that began on a unit, and how many commands had been taken then. It
/// reads the tables later.
#[derive(Clone, Copy, Debug, PartialEq, Eq)]
pub struct Walk {
    pub(crate) bits: u64,
}

impl Model for Walk {
    ghost use Rattle.std.specs.Prelude.{ℕ};

    ghost Value = { ℕ };

    ghost view = { λ w. w.bits };

    ghost inverse = { λ bits. record { bits = bits } };
}

impl Walk {
    /// Its number, for whoever keeps it in a word.
    pub fn bits(self) -> u64
        ensures { result ≡ self }
    {
        self.bits
    }

    /// The walk of a number. One that nobody made is its caller's claim, and is judged as any.
    pub fn from_bits(bits: u64) -> Walk
        ensures { result ≡ bits }
    {
        Walk { bits }
    }

    /// A walk of a unit that began after so many commands.
    pub(crate) fn new(unit: u64, began: u64) -> Walk
        requires unit { unit < 2 ^ 8 }
        requires began { began < 2 ^ 56 }
        ensures { result ≡ walk_number unit began }
    {
        Walk {
            bits: unit * NUMBERS + began,
        }
    }

    /// After how many commands it began on this unit. More than are ever taken if that was on
    /// another.
    pub(crate) fn began_on(self, unit: u64) -> u64
        ensures { result ≡ began_of unit self }
    {
        let Walk { bits } = self;
        if bits / NUMBERS == unit {
            bits % NUMBERS
        } else {
            NUMBERS
        }
    }
}

/// The numbers that a unit gives its walks: they go on over resets and evictions, so that one of
/// before is told from those behind.
#[derive(Clone, Copy, Debug, PartialEq, Eq)]
pub(crate) struct WalkNumbers {
    /// The lower 56 bits of the number of a walk that begins right behind the last reset or
    /// eviction.
    pub(crate) first: u64,
    /// How many commands had been taken then: none, behind a reset.
    pub(crate) since: u64,
}

impl WalkNumbers {
    /// The number of a walk that begins once so many commands are taken.
    pub(crate) fn now(self, taken: u64) -> u64
        requires { AreNumbers self taken }
        ensures { result ≡ (self.first + (taken - self.since)) % 2 ^ 56 }
    {
        (self.first + (taken - self.since)) % NUMBERS
    }

    /// After how many commands a walk of this number began.
    pub(crate) fn began(self, number: u64) -> u64
        requires first { self.first < 2 ^ 56 }
        requires since { self.since < 2 ^ 56 }
        requires number { number < 2 ^ 56 }
        ensures { result ≡ self.since + (number + (2 ^ 56 - self.first)) % 2 ^ 56 }
    {
        self.since + (number + (NUMBERS - self.first)) % NUMBERS
    }

    /// Numbers behind those of all walks that began while so many commands were taken.
    pub(crate) fn behind(self, taken: u64, since: u64) -> WalkNumbers
        requires { AreNumbers self taken }
        ensures { result ≡ record {
          first = (self.first + (taken - self.since + 1)) % 2 ^ 56;
          since = since;
        } }
    {
        WalkNumbers {
            first: (self.first + (taken - self.since + 1)) % NUMBERS,
            since,
        }
    }
}

/// Why what a walk read isn't used. Nothing changes. Walk again, unless the caches refuse it.
#[derive(Clone, Copy, Debug, PartialEq, Eq, Error)]
pub enum WalkFault {
    /// A command that covers the tag was taken since the walk began.
    #[error("overtaken: a command that covers the tag was taken since the walk began")]
    Overtaken,
    /// More than 64 invalidations were taken since the walk began, and what the first of them
    /// covered is forgotten. That 64 are kept is this project's choice.
    #[error("too old: more than 64 invalidations were taken since the walk began")]
    TooOld,
    /// It began on another unit, after more commands than this one took, or, on a
    /// `TrackedQueueUnit`, before its last reset or eviction.
    #[error("the walk began on another unit")]
    OtherUnit,
    /// The caches refuse it.
    #[error("the caches refuse it")]
    Refused(CacheFault),
}
