//! Transactions that began with an entry or a walk.
ghost use Rattle.std.specs.Prelude.{◌≡◌, ◌↔◌, true};
ghost use Rattle.transactions.specs.Tracking.{number_after, first_number, unit_of, IsNumber};
ghost use Rattle.transactions.specs.Transactions.{bits_of, transaction_of};

use crate::walk::WalkFault;
use std::marker::Model;
use thiserror::Error;

/// How many numbers a unit's transactions have, 0 among them, which none has: so a unit's number of
/// 8 bits, one of these and a slot fit into a word of 64 bits. This project's choice.
const NUMBERS: u64 = 1_099_511_627_776;

/// How many slots there may be: a slot's number has 16 bits.
const SLOTS: u64 = 65_536;

/// A transaction that was translated with an entry of a unit, or a walk's that reads tables, and
/// hasn't ended: it is to be given to `TrackedUnit::end` of that unit when it has. The compiler lets
/// nobody drop it.
pub struct Transaction {
    pub(crate) slot: usize,
    pub(crate) number: u64,
}

impl Model for Transaction {
    ghost use Rattle.transactions.specs.Transactions.{TransactionValue, FitsBits};

    ghost Value = { TransactionValue };

    ghost view = { λ t. record { slot = t.slot; number = t.number } };

    ghost invariant = { λ t. FitsBits t.slot t.number };
}

impl Transaction {
    /// Its number in the upper 48 bits, whose upper 8 are the unit's, and its slot in the lower 16,
    /// for whoever keeps it in a word. It isn't over by that.
    pub fn into_bits(self) -> u64
        ensures bits { result ≡ bits_of self }
        ensures back { transaction_of result ≡ self }
    {
        let Transaction { slot, number } = self;
        number * SLOTS + slot as u64
    }

    /// The transaction of a word. One that no transaction had is its caller's claim: `end` gives it
    /// back if it isn't of one that is outstanding.
    pub fn from_bits(bits: u64) -> Transaction
        ensures { result ≡ transaction_of bits }
    {
        Transaction {
            slot: (bits % SLOTS) as usize,
            number: bits / SLOTS,
        }
    }
}

/// What the end of a transaction means for a CMD_SYNC that waits.
#[derive(Clone, Copy, Debug, PartialEq, Eq)]
pub enum Ended {
    /// It was covered, and no other is: a CMD_SYNC that waited needn't any more. Look at the queue
    /// again.
    LastCovered,
    /// It wasn't covered, or others are: a CMD_SYNC that waited waits still.
    Other,
}

impl Ended {
    /// By whether the one that ended was covered, and how many are covered now.
    pub(crate) fn of(covered: bool, left: u32) -> Ended
        ensures { (result ≡ Ended.LastCovered) ↔ ((covered ≡ true) × (left ≡ 0)) }
    {
        if covered && left == 0 {
            Ended::LastCovered
        } else {
            Ended::Other
        }
    }
}

/// How many transactions are outstanding.
#[derive(Clone, Copy, Debug, PartialEq, Eq)]
pub struct OutstandingCounts {
    /// All that are.
    pub outstanding: u32,
    /// Those of them that a CMD_SYNC waits for.
    pub covered: u32,
}

/// Why a transaction can't begin. Nothing changes.
#[derive(Clone, Copy, Debug, PartialEq, Eq, Error)]
pub enum BeginFault {
    /// Nothing is held under the tag: walk the tables.
    #[error("nothing is held under the tag")]
    NotHeld,
    /// As many are outstanding as there is room for: end one first.
    #[error("as many transactions are outstanding as there is room for")]
    Full,
    /// What the walk read can't be used.
    #[error("what the walk read can't be used")]
    Walked(WalkFault),
}

/// The number of the first transaction of a unit.
pub(crate) fn first_number(unit: u8) -> u64
    ensures first { result ≡ first_number unit }
    ensures number { IsNumber result }
{
    u64::from(unit) * NUMBERS + 1
}

/// The number of the unit that a transaction is of.
pub(crate) fn unit_of(number: u64) -> u64
    ensures { result ≡ unit_of number }
{
    number / NUMBERS
}

/// The number of the transaction after this one: its lower 40 bits are 1 to 2^40 - 1, and then 1
/// again.
pub(crate) fn number_after(number: u64) -> u64
    requires { IsNumber number }
    ensures next { result ≡ number_after number }
    ensures number { IsNumber result }
{
    unit_of(number) * NUMBERS + (number % NUMBERS % (NUMBERS - 1) + 1)
}
