//! The unit: the caches, and the stop at an illegal command.
ghost use Rattle.std.specs.Prelude.{◌≡◌, ◌+◌, ◌<◌, ◌≤◌, ◌↔◌, All, take, [], List, None, Some, IfSome, OnOk, OnErr, IsTrue};
ghost use Rattle.std.specs.FinMap as finite;
ghost use Rattle.cmdcodec.specs.declared.command.Command.{Command as CommandOf};
ghost use Rattle.cmdcodec.specs.declared.ill.Ill.{Ill as IllOf};
ghost use Rattle.cmdcodec.specs.Legality.{first_ill};
ghost use Rattle.ringcore.specs.Limits.{most_reserved};
ghost use Rattle.ringcore.specs.world.World.{Taken};
ghost use Rattle.caches.specs.Covers.{covers};
ghost use Rattle.caches.specs.Finding.{IsFound, IsHeldIn};
ghost use Rattle.caches.specs.Held.{held, without_covered, AreOwn};
ghost use Rattle.caches.specs.Limits.{most_entries};
ghost use Rattle.caches.specs.Stored.{IsFillAnswer, IsListAnswer};
ghost use Rattle.caches.specs.Told.{AreTold, IsCoveredIn, only_covered};
ghost use Rattle.engine.specs.Settled.{IsSettled, StaysSettledWith};
ghost use Rattle.engine.specs.Stops.{IsStopped, MayComeNext, IsAcknowledgementAnswer, IsActive, acknowledged_by, err_of, word_of};
ghost use Rattle.engine.specs.Counting.{taken};
ghost use Rattle.engine.specs.Units.{HasJudged, HasJudgedWords, HasReplacedAwaited, HasLost, HasLostOlder, StaysSettled, IsSettledUnit, IsLegal, IsApplied, took, took_words, took_awaited, new_unit, emptied, filled, with_entry, with_entries};

use crate::counts::Counts;
use crate::remedy::{AckFault, Remedy};
use crate::stop::Stop;
use crate::verdict::{Judgement, Verdict};
use caches::{AddressSpace, CacheFault, Caches, Entry, Tag, TagTest, uncovered_entries_stay};
use cmdcodec::{Command, Page, Raw, decode, first_ill, legal_words_spell_one_command};
use ring::Device;
use std::marker::Model;

/// Applies commands to its caches, stops at an illegal one, and counts. It needs no ring.
#[derive(Drop)]
pub struct Unit {
    caches: Caches,
    stop: Stop,
    counts: Counts,
}

impl Model for Unit {
    ghost use Rattle.std.specs.Coded.{codes};
    ghost use Rattle.caches.specs.Stored.{stored_code};
    ghost use Rattle.engine.specs.Units.{UnitValue};

    ghost Value = { UnitValue };

    ghost coded = { Prim.hlevel (codes, stored_code) };

    ghost view = { λ u. record { caches = u.caches; stop = u.stop; counts = u.counts } };
}

/// A unit is settled for a list of taken commands if its counts are those of the list and no entry is older
/// than a command in it that covers it. So a unit that has taken nothing is settled only for the empty list.
impl Device for Unit {
    ghost use Rattle.engine.specs.Units.{IsSettledUnit};

    ghost settled = { λ u taken. IsSettledUnit u taken };
}

impl Unit {
    /// Creates a unit that has taken nothing, with these empty caches.
    pub fn new(caches: Caches) -> Unit
        requires empty { caches.entries ≡ held [] }
        ensures unit { result ≡ new_unit caches }
        ensures settled { IsSettled result.caches.entries [] }
    {
        Unit {
            caches,
            stop: Stop::new(),
            counts: Counts::none(),
        }
    }

    /// Returns its caches.
    pub fn into_caches(self) -> Caches
        ensures { result ≡ self.caches }
    {
        let Unit {
            caches,
            stop: _,
            counts: _,
        } = self;
        caches
    }

    /// Empties its caches, as a reset of the SMMU does, and starts its counts and its stop afresh. Takes no memory.
    pub fn reset(&mut self)
        ensures { self.new ≡ new_unit (emptied self.old.caches) }
    {
        self.caches.clear();
        self.stop = Stop::new();
        self.counts = Counts::none();
    }

    /// Whether consumption is stopped at an illegal command.
    pub fn stopped(&self) -> bool
        ensures { IsTrue result ↔ IsStopped self.now.stop.mode }
    {
        self.stop.is_stopped()
    }

    /// Returns the counts of the commands taken.
    pub fn counts(&self) -> Counts
        ensures { result ≡ self.now.counts }
    {
        self.counts
    }

    /// SMMU_CMDQ_CONS.ERR, SMMU_GERROR and SMMU_GERRORN.
    pub fn error(&self) -> (u32, u32, u32)
        ensures err { result.0 ≡ err_of self.now.stop.mode }
        ensures gerror { result.1 ≡ word_of self.now.stop.error }
        ensures gerrorn { result.2 ≡ word_of self.now.stop.acknowledged }
    {
        self.stop.registers()
    }

    /// Returns the words at which it stopped, until they are taken: after a stop they come next.
    pub fn awaited(&self) -> Option<Raw>
        ensures { result ≡ self.now.stop.next }
    {
        self.stop.awaited()
    }

    /// Applies a legal command; stops at an illegal one, or takes it without effect if told to replace it. A
    /// CMD_SYNC has no effect on entries. The unit must not be stopped, and after a stop `raw` must be the
    /// words at which it stopped.
    pub fn judge(&mut self, raw: Raw) -> Verdict
        requires running { ¬ IsStopped self.old.stop.mode }
        requires next { MayComeNext raw self.old.stop }
        requires few { taken self.old.counts < most_reserved }
        ensures judged { HasJudged raw self.old self.new result }
        ensures settled { StaysSettled self.old self.new (took raw result) }
    {
        match decode(raw) {
            Ok(command) => {
                let removed = self.apply(raw, &command);
                Verdict::Applied { command, removed }
            }
            Err(ill) => {
                if self.stop.is_replacing() {
                    self.counts.count_replaced(raw);
                    self.stop.go_on();
                    Verdict::Replaced(ill)
                } else {
                    self.stop.stop_at(raw, ill);
                    Verdict::Stopped(ill)
                }
            }
        }
    }

    /// Does what `judge` does and requires the same, and doesn't say which command it was. Words are decoded only if
    /// what they may cover has to be found.
    pub fn judge_words(&mut self, raw: Raw) -> Judgement
        requires running { ¬ IsStopped self.old.stop.mode }
        requires next { MayComeNext raw self.old.stop }
        requires few { taken self.old.counts < most_reserved }
        ensures judged { HasJudgedWords raw self.old self.new result }
        ensures settled { StaysSettled self.old self.new (took_words raw result) }
    {
        if let Some(removed) = self.apply_words(raw) {
            return Judgement::Applied { removed };
        }
        match self.judge(raw) {
            Verdict::Applied { removed, .. } => Judgement::Applied { removed },
            Verdict::Stopped(ill) => Judgement::Stopped(ill),
            Verdict::Replaced(ill) => Judgement::Replaced(ill),
        }
    }

    /// Takes the words at which it stopped without effect, in place of judging them again: somebody wrote over them.
    pub(crate) fn replace_awaited(&mut self, awaited: Raw)
        requires running { ¬ IsStopped self.old.stop.mode }
        requires next { self.old.stop.next ≡ Some awaited }
        requires few { taken self.old.counts < most_reserved }
        ensures replaced { HasReplacedAwaited awaited self.old self.new }
        ensures settled { StaysSettled self.old self.new (took_awaited awaited) }
    {
        self.stop.awaited();
        self.counts.count_replaced(awaited);
        self.stop.go_on();
    }

    /// Applies a legal command and returns how many entries it removed.
    #[inline]
    pub(crate) fn apply(&mut self, raw: Raw, command: &Command) -> u32
        requires running { ¬ IsStopped self.old.stop.mode }
        requires next { MayComeNext raw self.old.stop }
        requires few { taken self.old.counts < most_reserved }
        requires legal { IsLegal raw command.now }
        ensures { IsApplied raw command.now result self.old self.new }
    {
        self.stop.is_replacing();
        let removed = self.caches.apply(command);
        self.counts.count_applied(raw, removed);
        self.stop.go_on();
        removed
    }

    /// Applies a command if its words are legal, and returns how many entries it removed. It does nothing if
    /// they aren't.
    ///
    /// Words are decoded only if an entry is held and they aren't a CMD_SYNC: that takes longer than all else here.
    #[inline]
    pub(crate) fn apply_words(&mut self, raw: Raw) -> Option<u32>
        requires running { ¬ IsStopped self.old.stop.mode }
        requires next { MayComeNext raw self.old.stop }
        requires few { taken self.old.counts < most_reserved }
        ensures applied { IfSome result (λ removed. (command : CommandOf)
            × IsApplied raw command removed self.old self.new) }
        ensures illegal { result ≡ None → (ill : IllOf) × (first_ill raw ≡ Some ill) }
        ensures kept { result ≡ None → self.new ≡ self.old }
    {
        if self.caches.len() > 0 && !raw.is_sync() {
            let decoded = decode(raw);
            // By reference, so that the command isn't copied.
            let Ok(command) = &decoded else {
                return None;
            };
            return Some(self.apply(raw, command));
        }
        if first_ill(raw).is_some() {
            return None;
        }
        // For the clause `one`, and since nothing is covered.
        legal_words_spell_one_command();
        uncovered_entries_stay();
        self.stop.is_replacing();
        self.counts.count_applied(raw, 0);
        self.stop.go_on();
        Some(0)
    }

    /// CMDQ_ERR of SMMU_GERROR and of SMMU_GERRORN.
    pub(crate) fn error_bits(&self) -> (bool, bool)
        ensures error { result.0 ≡ self.now.stop.error }
        ensures acknowledged { result.1 ≡ self.now.stop.acknowledged }
        ensures active { IsActive self.now.stop.mode self.now.stop.error
            self.now.stop.acknowledged }
    {
        self.stop.bits()
    }

    /// Acknowledges the error with this remedy.
    pub(crate) fn go_on_with(&mut self, remedy: Remedy)
        requires stopped { IsStopped self.old.stop.mode }
        ensures { self.new ≡ record self.old { stop = acknowledged_by remedy self.old.stop } }
    {
        self.stop.go_on_with(remedy)
    }

    /// Software writes SMMU_GERRORN and chooses what happens to the command at which consumption stopped.
    /// Only CMDQ_ERR, bit 0, of the word matters.
    ///
    /// Errors, in this order, each changing nothing: G1 if no error is active; G2 if CMDQ_ERR of the word
    /// isn't that of SMMU_GERROR.
    pub fn acknowledge(&mut self, gerrorn: u32, remedy: Remedy) -> Result<(), AckFault>
        ensures answer { IsAcknowledgementAnswer self.old.stop gerrorn result }
        ensures ok { OnOk result (self.new
            ≡ record self.old { stop = acknowledged_by remedy self.old.stop }) }
        ensures err { OnErr result (self.new ≡ self.old) }
        ensures settled { StaysSettled self.old self.new [] }
    {
        self.stop.acknowledge(gerrorn, remedy)
    }
}

impl Unit {
    /// A witness of what a ring asks of a unit that is its device: that it counted all that was taken, and
    /// that its entries are settled for it. It does nothing.
    pub fn is_settled_as_a_device(&self)
        ensures { (list : List Taken) → ⟦<Unit as Device>⟧.settled self.now list
            ↔ IsSettledUnit self.now list }
    {
        let _ = &self.caches;
    }

    /// Puts in an entry that is born now and returns the one held under its tag before, if any.
    ///
    /// Errors, in this order, each leaving the unit unchanged: C2 if the tag's block isn't well formed; C1 if
    /// the tag is new and the caches are full; C3 if the tag is new and memory runs out.
    pub fn fill(&mut self, tag: Tag, value: u64) -> Result<Option<Entry>, CacheFault>
        ensures answer { IsFillAnswer self.old.caches tag result }
        ensures ok { OnOk result (self.new ≡ with_entries self.old (filled tag value self.old)) }
        ensures err { OnErr result (self.new ≡ self.old) }
        ensures settled { StaysSettled self.old self.new [] }
    {
        let born = self.counts.taken();
        self.caches.fill(Entry { tag, value, born })
    }

    /// Puts in an entry that says itself after how many commands it was born, and returns the one held under its tag
    /// before, if any. The entries stay settled for each list of commands taken for which this one is; that is for the
    /// caller to show.
    ///
    /// Errors: those of `fill`.
    pub fn fill_born(&mut self, entry: Entry) -> Result<Option<Entry>, CacheFault>
        ensures answer { IsFillAnswer self.old.caches entry.tag result }
        ensures ok { OnOk result (self.new ≡ with_entries self.old (with_entry entry self.old)) }
        ensures err { OnErr result (self.new ≡ self.old) }
        ensures settled { StaysSettledWith entry self.old.caches.entries self.new.caches.entries }
    {
        self.caches.fill(entry)
    }

    /// Removes and returns the entry held under `tag`, if any.
    pub fn evict(&mut self, tag: &Tag) -> Option<Entry>
        ensures was { result ≡ finite.get self.old.caches.entries tag.now }
        ensures new { self.new
            ≡ with_entries self.old (finite.remove self.old.caches.entries tag.now) }
        ensures settled { StaysSettled self.old self.new [] }
    {
        self.caches.evict(tag)
    }

    /// Removes all entries whose tags pass `test` and returns how many there were. Takes no memory.
    pub fn evict_all<T: TagTest>(&mut self, test: &T) -> u32
        ensures lost { HasLost (T.passing test.now) result self.old self.new }
        ensures settled { StaysSettled self.old self.new [] }
    {
        self.caches.evict_all(test)
    }

    /// Removes the entries that `command` covers, without taking it, and returns how many there were: for a device that
    /// is unplugged, or a virtual machine that is reset. Also while it is stopped. Takes no memory.
    pub fn invalidate(&mut self, command: &Command) -> u32
        ensures lost { HasLost (covers command.now) result self.old self.new }
        ensures settled { StaysSettled self.old self.new [] }
    {
        self.caches.apply(command)
    }

    /// Tells which entries `command` covers, those that `invalidate` would remove, and removes none: writes them to the
    /// beginning of `entries`, as many as there is room for, and returns how many there are in all, as `Caches::covered`
    /// does. Takes no memory.
    pub fn covered(&self, command: &Command, entries: &mut [Entry]) -> usize
        ensures told { AreTold (only_covered command.now self.now.caches.entries)
            entries.old entries.new result }
        ensures own { All (IsCoveredIn self.now.caches.entries command.now)
            (take result entries.new) }
        ensures counted { result + finite.len (without_covered command.now self.now.caches.entries)
            ≡ finite.len self.now.caches.entries }
        ensures few { result ≤ most_entries }
    {
        self.caches.covered(command, entries)
    }

    /// Removes all entries that were filled before `born` commands were taken, those whose `born` is less, and returns
    /// how many there were. Takes no memory.
    pub fn evict_older(&mut self, born: u64) -> u32
        ensures lost { HasLostOlder born result self.old self.new }
        ensures settled { StaysSettled self.old self.new [] }
    {
        self.caches.evict_older(born)
    }

    /// Returns the entry held under `tag`, if any.
    #[inline(always)]
    pub fn lookup(&self, tag: &Tag) -> Option<Entry>
        ensures value { result ≡ finite.get self.now.caches.entries tag.now }
        ensures own { IfSome result (λ entry. entry.tag ≡ tag.now) }
    {
        self.caches.lookup(tag)
    }

    /// Returns the entry that holds a page of an address space, at the greatest span of the mask that has one, as
    /// `Caches::find` does.
    pub fn find(&self, space: &AddressSpace, page: Page, spans: u64) -> Option<Entry>
        ensures found { IsFound self.now.caches.entries space.now page spans result }
        ensures own { IsHeldIn self.now.caches.entries result }
    {
        self.caches.find(space, page, spans)
    }

    /// A witness that each entry is held under its own tag. It does nothing.
    pub fn are_own(&self)
        ensures { AreOwn self.now.caches.entries }
    {
        self.caches.are_own();
    }

    /// Returns the number of entries held.
    pub fn len(&self) -> usize
        ensures { result ≡ finite.len self.now.caches.entries }
    {
        self.caches.len()
    }

    /// Returns all entries held, in tag order.
    ///
    /// Errors: only C3, if memory runs out.
    pub fn entries(&self) -> Result<Vec<Entry>, CacheFault>
        ensures { IsListAnswer self.now.caches.entries result }
    {
        self.caches.entries()
    }
}
