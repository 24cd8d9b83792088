//! What a run sends.
ghost use Rattle.std.specs.Prelude.{◌≡◌, ◌<◌, ◌≤◌};
ghost use Rattle.cmdcodec.specs.Words.{encoding};
ghost use Rattle.qindex.specs.Positions.{size};
ghost use Rattle.stress.specs.Plans.{PlanValue, IsPlan, PlansWithin, plan_of, body, body_length, closes, command, commands_to};

use batch::Batch;
use cmdcodec::{Asid, Command, Page, Reach, Vmid, encode};
use std::marker::Model;

/// What a run sends (own): `batches` batches from each of `senders` senders, on a ring of `2^log2` slots, each worker
/// within `turns` turns. Batch k of sender s invalidates one to four pages by address.
#[derive(Clone, Copy, Debug, PartialEq, Eq)]
pub struct Plan {
    log2: u32,
    senders: u32,
    batches: u32,
    turns: u32,
    every: u32,
}

impl Model for Plan {
    ghost use Rattle.qindex.specs.Positions.{size};
    ghost use Rattle.stress.specs.Plans.{PlanValue, IsPlan};

    ghost Value = { PlanValue };

    ghost view = { λ p. record { log2 = p.log2; senders = p.senders; batches = p.batches; turns = p.turns; every = p.every } };

    ghost invariant = { λ p. IsPlan (record { log2 = p.log2; senders = p.senders; batches = p.batches; turns = p.turns; every = p.every }) };

    ghost inverse = { λ v. record { log2 = v.log2; senders = v.senders; batches = v.batches; turns = v.turns; every = v.every } };
}

impl Plan {
    /// Returns a plan in which each batch closes with a CMD_SYNC, or None if a number is out of range: log2 1 to 19, 1
    /// to 64 senders, 1 to 100,000 batches for each, 1 to 10,000,000 turns for each worker.
    pub fn new(log2: u32, senders: u32, batches: u32, turns: u32) -> Option<Plan>
        ensures { PlansWithin (plan_of log2 senders batches turns 0) result }
    {
        Plan::with_bare(log2, senders, batches, turns, 0)
    }

    /// The same, but the last of each `every` batches of a sender has no CMD_SYNC; 0 to 100,000, and with 0 each batch
    /// has one.
    pub fn with_bare(log2: u32, senders: u32, batches: u32, turns: u32, every: u32) -> Option<Plan>
        ensures { PlansWithin (plan_of log2 senders batches turns every) result }
    {
        let ring = 1 <= log2 && log2 <= 19 && 1 <= senders && senders <= 64;
        let work = 1 <= batches && batches <= 100_000 && 1 <= turns && turns <= 10_000_000;
        if ring && work && every <= 100_000 {
            Some(Plan {
                log2,
                senders,
                batches,
                turns,
                every,
            })
        } else {
            None
        }
    }

    /// The binary logarithm of the number of slots.
    pub fn log2(self) -> u32
        ensures value { result ≡ self.log2 }
        ensures plan { IsPlan self }
    {
        self.log2
    }

    /// How many slots the ring has.
    pub(crate) fn slots(self) -> u32
        ensures { result ≡ size self.log2 }
    {
        1 << self.log2
    }

    /// How many senders there are.
    pub fn senders(self) -> u32
        ensures value { result ≡ self.senders }
        ensures plan { IsPlan self }
    {
        self.senders
    }

    /// How many batches each sends.
    pub fn batches(self) -> u32
        ensures value { result ≡ self.batches }
        ensures plan { IsPlan self }
    {
        self.batches
    }

    /// How often each sender's worker tries to reserve, and how many steps the engine's takes.
    pub fn turns(self) -> u32
        ensures value { result ≡ self.turns }
        ensures plan { IsPlan self }
    {
        self.turns
    }

    /// Whether batch k, from 1, closes with a CMD_SYNC.
    pub(crate) fn closes(self, k: u32) -> bool
        ensures { result ≡ closes self k }
    {
        self.every == 0 || k % self.every != 0
    }

    /// How many commands batch k of a sender has before its CMD_SYNC.
    fn body_length(self, sender: u32, k: u32) -> u32
        requires sender { sender < 64 }
        requires batch { k ≤ 100000 }
        ensures value { result ≡ body_length self sender k }
        ensures few { result ≤ 4 }
    {
        let most = ((1u32 << self.log2) - 1).min(4);
        1 + (sender + k) % most
    }

    /// Returns batch k, from 1, of a sender.
    pub(crate) fn batch(self, sender: u32, k: u32) -> Batch
        requires sender { sender < 64 }
        requires batch { k ≤ 100000 }
        ensures { result ≡ body self sender k }
    {
        let many = self.body_length(sender, k);
        let mut batch = Batch::new(encode(&command(sender, k, 0))).unwrap();
        for place in 1..many {
            batch.push(&command(sender, k, place)).unwrap();
        }
        batch
    }
}

/// Returns command `place` of batch k of a sender.
fn command(sender: u32, k: u32, place: u32) -> Command
    requires sender { sender < 64 }
    requires batch { k ≤ 100000 }
    requires place { place < 4 }
    ensures { result ≡ command sender k place }
{
    Command::TlbiNhVa {
        vmid: Vmid::new(u64::from(sender)).unwrap(),
        asid: Asid::new(u64::from(place)).unwrap(),
        leaf: true,
        page: Page::new(u64::from(k)).unwrap(),
        reach: Reach::Page,
    }
}
