//! The counts of a unit.
ghost use Rattle.std.specs.Prelude.{◌≡◌, ◌<◌, ◌≤◌};
ghost use Rattle.ringcore.specs.Limits.{most_reserved};
ghost use Rattle.caches.specs.Limits.{most_entries};
ghost use Rattle.engine.specs.Counting.{taken, none_counted, counted_applied, counted_replaced};

use cmdcodec::Raw;
use std::marker::Model;

/// Counts of the commands taken. Only a unit makes one.
#[derive(Clone, Copy, Debug, PartialEq, Eq)]
pub struct Counts {
    applied: u64,
    replaced: u64,
    syncs: u64,
    removed: u64,
}

impl Model for Counts {
    ghost use Rattle.engine.specs.Counting.{CountsValue, AreCounts};

    ghost Value = { CountsValue };

    ghost view = { λ c. record { applied = c.applied; replaced = c.replaced; syncs = c.syncs; removed = c.removed } };

    ghost invariant = { λ c. AreCounts (record { applied = c.applied; replaced = c.replaced; syncs = c.syncs; removed = c.removed }) };

    ghost inverse = { λ v. record { applied = v.applied; replaced = v.replaced; syncs = v.syncs; removed = v.removed } };
}

impl Counts {
    /// The counts before the first command.
    pub(crate) fn none() -> Counts
        ensures { result ≡ none_counted }
    {
        Counts {
            applied: 0,
            replaced: 0,
            syncs: 0,
            removed: 0,
        }
    }

    /// How many commands were taken, at most `2^46`: those applied and those replaced.
    pub fn taken(&self) -> u64
        ensures value { result ≡ taken self.now }
        ensures few { result ≤ most_reserved }
    {
        self.applied + self.replaced
    }

    /// How many legal commands were applied.
    pub fn applied(&self) -> u64
        ensures { result ≡ self.now.applied }
    {
        self.applied
    }

    /// How many illegal commands were replaced.
    pub fn replaced(&self) -> u64
        ensures { result ≡ self.now.replaced }
    {
        self.replaced
    }

    /// How many of both are a CMD_SYNC.
    pub fn syncs(&self) -> u64
        ensures { result ≡ self.now.syncs }
    {
        self.syncs
    }

    /// How many entries the commands removed.
    pub fn removed(&self) -> u64
        ensures { result ≡ self.now.removed }
    {
        self.removed
    }

    /// A command was applied, and removed so many entries.
    pub(crate) fn count_applied(&mut self, raw: Raw, removed: u32)
        requires few { taken self.old < most_reserved }
        requires removed { removed ≤ most_entries }
        ensures { self.new ≡ counted_applied raw removed self.old }
    {
        self.applied += 1;
        self.syncs += u64::from(raw.is_sync());
        self.removed += u64::from(removed);
    }

    /// A command was replaced.
    pub(crate) fn count_replaced(&mut self, raw: Raw)
        requires few { taken self.old < most_reserved }
        ensures { self.new ≡ counted_replaced raw self.old }
    {
        self.replaced += 1;
        self.syncs += u64::from(raw.is_sync());
    }
}
