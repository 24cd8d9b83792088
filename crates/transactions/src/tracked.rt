//! A unit with the walks and transactions that are under way beside its commands.
ghost use Rattle.std.specs.Prelude.{◌≡◌, ◌<◌, ◌+◌, ℕ, ◌++◌, ◌∷◌, [], List, true, Some, None};
ghost use Rattle.std.specs.Prelude.{slice_get, IfOk, OnOk, OnErr, IfSome, Err, map};
ghost use Rattle.std.specs.FinMap as finite;
ghost use Rattle.cmdcodec.specs.declared.command.Command.{Command as CommandOf};
ghost use Rattle.cmdcodec.specs.Opcodes.{is_sync};
ghost use Rattle.cmdcodec.specs.Legality.{first_ill};
ghost use Rattle.ringcore.specs.Limits.{most_reserved};
ghost use Rattle.ringcore.specs.world.World.{Taken};
ghost use Rattle.caches.specs.Blocks.{IsBlock};
ghost use Rattle.caches.specs.Covers.{covers};
ghost use Rattle.caches.specs.Held.{held};
ghost use Rattle.caches.specs.Stored.{IsFillAnswer};
ghost use Rattle.engine.specs.Stops.{IsStopped, MayComeNext, IsAcknowledgementAnswer};
ghost use Rattle.engine.specs.Counting.{taken};
ghost use Rattle.engine.specs.Units.{HasJudged, HasLost, HasLostOlder, took};
ghost use Rattle.transactions.specs.Between.{TakesTracked, IsApplyAnswer};
ghost use Rattle.transactions.specs.Outstanding.{covered_by, AreCountsOf};
ghost use Rattle.transactions.specs.Completed.{IsCompletedAt, IsComplete};
ghost use Rattle.transactions.specs.TrackedVerdicts.{IsTrackedVerdict, WaitsExactly, took_by};
ghost use Rattle.transactions.specs.Tracking.{IsTracked, StaysTracked, new_tracked};
ghost use Rattle.transactions.specs.Tracking.{with_unit, with_filled, with_evicted};
ghost use Rattle.transactions.specs.Tracking.{with_acknowledged};
ghost use Rattle.transactions.specs.Together.{StaysTogether, IsTogetherFromNothing};
ghost use Rattle.transactions.specs.Transactions.{IsBeginAnswer, IsBeginWalkedAnswer, IsEndAnswer};
ghost use Rattle.transactions.specs.Transactions.{IsOutstandingWalk};
ghost use Rattle.transactions.specs.Walks.{AnswersWalk, IsCachesAnswer, with_walked};
ghost use Rattle.transactions.specs.Walks.{walk_now, began_on, IsRefusedElsewhere};

use crate::tracked_verdict::TrackedVerdict;
use crate::tracking::Tracking;
use crate::transaction::{BeginFault, Ended, OutstandingCounts, Transaction};
use crate::walk::{Walk, WalkFault};
use caches::{CacheFault, Caches, Entry, Tag, TagTest};
use cmdcodec::{Command, Raw, first_ill};
use engine::{AckFault, Remedy, Unit, Verdict};
use ring::Device;
use std::alloc::{AllocError, Global};
use std::marker::Model;

/// A unit that knows of walks and of transactions. What a walk read is filled only if nothing taken
/// meanwhile covers it, and a CMD_SYNC is taken only if no transaction is outstanding that a command
/// before it concerns: one that began with an entry which it covers, or that reads tables.
#[derive(Drop)]
pub struct TrackedUnit {
    unit: Unit,
    tracking: Tracking,
}

impl Model for TrackedUnit {
    ghost use Rattle.std.specs.Coded.{codes};
    ghost use Rattle.caches.specs.Stored.{stored_code};
    ghost use Rattle.transactions.specs.Tracking.{TrackedValue};

    ghost Value = { TrackedValue };

    ghost coded = { Prim.hlevel (codes, stored_code) };

    ghost view = { λ t. record {
      unit = t.unit;
      recent = t.tracking.recent;
      outstanding = t.tracking.outstanding;
      next_number = t.tracking.next_number;
    } };
}

/// A tracked unit is settled for a list of taken commands if it is tracked for it: so a ring's
/// consumer that is lent one completes a CMD_SYNC only while no transaction is outstanding that it
/// had to wait for.
impl Device for TrackedUnit {
    ghost use Rattle.transactions.specs.Tracking.{IsTracked};

    ghost settled = { λ t taken. IsTracked t taken };
}

impl TrackedUnit {
    /// A witness: whatever CMD_SYNC was taken, no entry is held, and no transaction is outstanding
    /// that uses one or tables, which is older than a command before that CMD_SYNC that concerns it.
    /// It does nothing.
    pub fn is_complete(&self)
        ensures { (list : List Taken) (end : ℕ) → IsTracked self.now list
            → IsCompletedAt list end → IsComplete self.now list end }
    {
        let _ = &self.unit;
    }

    /// Creates a unit that has taken nothing, with these empty caches, and room for 0 to 65,535
    /// transactions. Its number tells its transactions and walks from those of other units: who has
    /// several gives each another.
    pub fn new(
        alloc: Global,
        number: u8,
        caches: Caches,
        room: u16,
    ) -> Result<TrackedUnit, AllocError>
        requires empty { caches.entries ≡ held [] }
        ensures unit { IfOk result (λ t. t ≡ new_tracked number caches room) }
        ensures tracked { IfOk result (λ t. IsTracked t []) }
        ensures together { IfOk result (λ t. IsTogetherFromNothing t) }
    {
        let tracking = Tracking::new(alloc, number, room)?;
        let unit = Unit::new(caches);
        Ok(TrackedUnit { unit, tracking })
    }

    /// Applies a legal command; stops at an illegal one, or takes it without effect if told to
    /// replace it. A legal CMD_SYNC isn't taken while a transaction is outstanding that a command
    /// before it concerns. The unit must not be stopped, and after a stop
    /// `raw` must be the words at which it stopped.
    pub fn judge(&mut self, raw: Raw) -> TrackedVerdict
        requires running { ¬ IsStopped self.old.unit.stop.mode }
        requires next { MayComeNext raw self.old.unit.stop }
        requires few { taken self.old.unit.counts < most_reserved }
        ensures judged { IsTrackedVerdict raw self.old self.new result }
        ensures waits { WaitsExactly raw self.old result }
        ensures tracked { StaysTracked self.old self.new (took_by raw result) }
    {
        if let Some(transactions) = self.tracking.has_to_wait(raw) {
            return TrackedVerdict::Waiting { transactions };
        }
        TrackedVerdict::Judged(self.take(raw))
    }

    /// Judges a command that needn't wait.
    fn take(&mut self, raw: Raw) -> Verdict
        requires running { ¬ IsStopped self.old.unit.stop.mode }
        requires next { MayComeNext raw self.old.unit.stop }
        requires few { taken self.old.unit.counts < most_reserved }
        ensures judged { HasJudged raw self.old.unit self.new.unit result }
        ensures covered { self.new.outstanding ≡ covered_by result self.old.outstanding }
        ensures next { self.new.next_number ≡ self.old.next_number }
        ensures tracked { TakesTracked raw self.old self.new (took raw result) }
    {
        let place = self.unit.counts().taken();
        match self.unit.judge(raw) {
            Verdict::Applied { command, removed } => {
                self.tracking.note(place, raw);
                Verdict::Applied { command, removed }
            }
            other => other,
        }
    }

    /// Applies a command that is legal and needn't wait, and returns how many entries it removed.
    /// With another it does nothing.
    pub(crate) fn apply(&mut self, raw: Raw) -> Option<u32>
        requires running { ¬ IsStopped self.old.unit.stop.mode }
        requires next { MayComeNext raw self.old.unit.stop }
        requires few { taken self.old.unit.counts < most_reserved }
        ensures { IsApplyAnswer raw self.old self.new result }
    {
        if first_ill(raw).is_some() {
            return None;
        }
        if self.tracking.has_to_wait(raw).is_some() {
            return None;
        }
        match self.take(raw) {
            Verdict::Applied { removed, .. } => Some(removed),
            Verdict::Stopped(_) | Verdict::Replaced(_) => unreachable!(),
        }
    }

    /// A translation table walk begins now.
    pub fn begin_walk(&self) -> Walk
        ensures walk { result ≡ walk_now self.now }
        ensures began { began_on self.now result ≡ taken self.now.unit.counts }
        ensures elsewhere { IsRefusedElsewhere self.now result }
    {
        let taken = self.unit.counts().taken();
        Walk::new(self.tracking.unit_number(), taken)
    }

    /// A translation table walk begins now that a CMD_SYNC waits for: it counts as a transaction
    /// that each invalidation concerns. Its token is to be given to `end` once it reads and writes
    /// tables no more. `None`, changing nothing, if as many transactions are outstanding as there is
    /// room for.
    pub fn begin_outstanding_walk(&mut self) -> Option<(Walk, Transaction)>
        ensures begun { IsOutstandingWalk (walk_now self.old) self.old self.new result }
        ensures tracked { StaysTracked self.old self.new [] }
        ensures together { StaysTogether self.old self.new }
    {
        let walk = self.begin_walk();
        self.tracking.begin_outstanding_walk(&self.unit, walk)
    }

    /// After how many commands a walk began.
    fn began(&self, walk: Walk) -> u64
        ensures { result ≡ began_on self.now walk }
    {
        walk.began_on(self.tracking.unit_number())
    }

    /// Fills what a walk read, as an entry that was born when the walk began, and returns the one
    /// held under its tag before, if any.
    ///
    /// Errors, in this order, each changing nothing: OtherUnit, TooOld and Overtaken, if the tag's
    /// block is well formed; then those of `Unit::fill`.
    pub fn fill_walked(
        &mut self,
        walk: Walk,
        tag: Tag,
        value: u64,
    ) -> Result<Option<Entry>, WalkFault>
        ensures answer { AnswersWalk self.old (began_on self.old walk) tag result }
        ensures caches { IsCachesAnswer self.old.unit.caches tag result }
        ensures ok { OnOk result (self.new
            ≡ with_walked (began_on self.old walk) tag value self.old) }
        ensures err { OnErr result (self.new ≡ self.old) }
        ensures tracked { StaysTracked self.old self.new [] }
        ensures together { StaysTogether self.old self.new }
    {
        let began = self.began(walk);
        self.tracking.fill_walked(&mut self.unit, began, tag, value)
    }

    /// A transaction begins with the entry that is held under a tag. Its token is to be given to
    /// `end` when it is over.
    ///
    /// Errors, in this order, each changing nothing: NotHeld if nothing is held under the tag or
    /// its block isn't well formed; Full if as many are outstanding as there is room for.
    pub fn begin(&mut self, tag: &Tag) -> Result<(Entry, Transaction), BeginFault>
        ensures begun { IsBeginAnswer self.old tag.now self.new result }
        ensures tracked { StaysTracked self.old self.new [] }
        ensures together { StaysTogether self.old self.new }
    {
        self.tracking.begin(&self.unit, tag)
    }

    /// A transaction begins with what a walk read, whether that is held or not: as with an entry
    /// that was born when the walk began.
    ///
    /// Errors, in this order, each changing nothing: Walked with the fault that `fill_walked`
    /// answers by the tag's block and by what was taken; Full if as many are outstanding as there
    /// is room for.
    pub fn begin_walked(&mut self, walk: Walk, tag: &Tag) -> Result<Transaction, BeginFault>
        ensures begun { IsBeginWalkedAnswer self.old (began_on self.old walk) tag.now
            self.new result }
        ensures tracked { StaysTracked self.old self.new [] }
        ensures together { StaysTogether self.old self.new }
    {
        let began = self.began(walk);
        self.tracking.begin_walked(&self.unit, began, tag)
    }

    /// A transaction is over. Returns whether it was the last that a CMD_SYNC waits for.
    ///
    /// Errors, changing nothing: the token, if it isn't of a transaction that is outstanding here,
    /// but has ended or is another unit's.
    pub fn end(&mut self, transaction: Transaction) -> Result<Ended, Transaction>
        ensures ended { IsEndAnswer self.old transaction self.new result }
        ensures tracked { StaysTracked self.old self.new [] }
        ensures together { StaysTogether self.old self.new }
    {
        self.tracking.end(transaction)
    }

    /// How many transactions are outstanding.
    pub fn outstanding(&self) -> OutstandingCounts
        ensures { AreCountsOf self.now.outstanding result }
    {
        self.tracking.counts()
    }

    /// Fills an entry that is read and born now, as `Unit::fill` does.
    pub fn fill(&mut self, tag: Tag, value: u64) -> Result<Option<Entry>, CacheFault>
        ensures answer { IsFillAnswer self.old.unit.caches tag result }
        ensures ok { OnOk result (self.new ≡ with_filled tag value self.old) }
        ensures err { OnErr result (self.new ≡ self.old) }
        ensures tracked { StaysTracked self.old self.new [] }
        ensures together { StaysTogether self.old self.new }
    {
        self.unit.fill(tag, value)
    }

    /// Removes and returns the entry held under `tag`, if any. Transactions that began with it stay
    /// outstanding.
    pub fn evict(&mut self, tag: &Tag) -> Option<Entry>
        ensures was { result ≡ finite.get self.old.unit.caches.entries tag.now }
        ensures new { self.new ≡ with_evicted tag.now self.old }
        ensures tracked { StaysTracked self.old self.new [] }
        ensures together { StaysTogether self.old self.new }
    {
        self.unit.evict(tag)
    }

    /// Removes the entries that `command` covers, without taking it, and returns how many there
    /// were, as `Unit::invalidate` does. Transactions that began with one stay outstanding, and no
    /// CMD_SYNC waits for them for that.
    pub fn invalidate(&mut self, command: &Command) -> u32
        ensures lost { HasLost (covers command.now) result self.old.unit self.new.unit }
        ensures rest { self.new ≡ with_unit self.new.unit self.old }
        ensures tracked { StaysTracked self.old self.new [] }
        ensures together { StaysTogether self.old self.new }
    {
        self.unit.invalidate(command)
    }

    /// Removes all entries whose tags pass `test` and returns how many there were, as
    /// `Unit::evict_all` does. Transactions that began with one stay outstanding.
    pub fn evict_all<T: TagTest>(&mut self, test: &T) -> u32
        ensures lost { HasLost (T.passing test.now) result self.old.unit self.new.unit }
        ensures rest { self.new ≡ with_unit self.new.unit self.old }
        ensures tracked { StaysTracked self.old self.new [] }
        ensures together { StaysTogether self.old self.new }
    {
        self.unit.evict_all(test)
    }

    /// Removes all entries that were filled before `born` commands were taken and returns how many
    /// there were, as `Unit::evict_older` does. Transactions that began with one stay outstanding.
    pub fn evict_older(&mut self, born: u64) -> u32
        ensures lost { HasLostOlder born result self.old.unit self.new.unit }
        ensures rest { self.new ≡ with_unit self.new.unit self.old }
        ensures tracked { StaysTracked self.old self.new [] }
        ensures together { StaysTogether self.old self.new }
    {
        self.unit.evict_older(born)
    }

    /// Software writes SMMU_GERRORN and chooses what happens to the command, as
    /// `Unit::acknowledge`.
    pub fn acknowledge(&mut self, gerrorn: u32, remedy: Remedy) -> Result<(), AckFault>
        ensures answer { IsAcknowledgementAnswer self.old.unit.stop gerrorn result }
        ensures ok { OnOk result (self.new ≡ with_acknowledged remedy self.old) }
        ensures err { OnErr result (self.new ≡ self.old) }
        ensures tracked { StaysTracked self.old self.new [] }
        ensures together { StaysTogether self.old self.new }
    {
        self.unit.acknowledge(gerrorn, remedy)
    }

    /// Returns the unit, for whoever only reads its entries, registers and counts.
    pub fn unit(&self) -> &Unit
        ensures { result.now ≡ self.now.unit }
    {
        &self.unit
    }
}
