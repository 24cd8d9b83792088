//! The queue of a unit.
ghost use Rattle.std.specs.Prelude.{◌≡◌, ◌+◌, length, ◌↔◌, [], None, Some, false, IfOk, IsTrue, OnOk, OnErr};
ghost use Rattle.std.specs.FinMap as finite;
ghost use Rattle.cmdcodec.specs.Legality.{first_ill as first_ill_of};
ghost use Rattle.caches.specs.Held.{held};
ghost use Rattle.hardware_queue.specs.Queues.{command_queue_error, IsFree, IsOfIllegal, written, overwritten, MayShow, shown_up_to, HasReadCons, HasReadErrors, HasReadAcknowledged, MayAcknowledge, acknowledged_by, MayRestart, HasRestarted};
ghost use Rattle.hardware_queue.specs.Owners.{IsNew};
ghost use Rattle.unit_queue.specs.Queued.{MayConsume, HasMoved, HasGoneOn, HasReadGoneOn, IsCalledIllegal, IsStopped, IsConsOf};
ghost use Rattle.unit_queue.specs.Laws.{ToldMeansNoneIsOlder};
ghost use Rattle.engine.specs.Units.{new_unit, filled, with_entries};
ghost use Rattle.caches.specs.Stored.{IsFillAnswer};

use caches::{CacheFault, Caches, Entry, Tag};
use cmdcodec::{Raw, first_ill};
use engine::{Unit, Verdict};
use hardware_queue::{CommandQueue, Positions, Reading, Reads, Tape, memory_stands, note_shown};
use qindex::{Geometry, Index, indexes_tell_the_queue};
use ringcore::MOST_RESERVED;
use std::alloc::{AllocError, Global};
use std::marker::Model;

/// A queue in memory, its registers, and a unit that consumes it.
#[derive(Drop)]
pub struct UnitQueue {
    memory: Vec<Raw>,
    /// SMMU_CMDQ_PROD and SMMU_CMDQ_CONS.
    prod: Index,
    cons: Index,
    unit: Unit,
    /// CMDQ_ERR of SMMU_GERROR.
    error: bool,
    /// SMMU_GERRORN.
    gerrorn: u32,
    /// Whether the error was read since it is active.
    seen: bool,
    /// Legal words that it calls illegal.
    unsupported: Option<Raw>,
    shown: Tape,
    lost: Positions,
    repeated: Positions,
    read: Reads,
}

impl Model for UnitQueue {
    ghost use Rattle.std.specs.Prelude.{[]};
    ghost use Rattle.std.specs.Coded.{codes};
    ghost use Rattle.caches.specs.Stored.{stored_code};
    ghost use Rattle.engine.specs.Counting.{taken};
    ghost use Rattle.unit_queue.specs.Queued.{Queued, IsQueued, seen_at, none_supplied};

    ghost Value = { Queued };

    ghost coded = { Prim.hlevel (codes, stored_code) };

    ghost view = { λ u. record {
      queue = record {
        geometry = u.prod.geometry;
        memory = u.memory.items;
        shown = u.shown;
        consumed = taken u.unit.counts;
        stopped = seen_at u.seen (taken u.unit.counts);
        gerrorn = u.gerrorn;
        lost = u.lost;
        repeated = u.repeated;
        read = u.read;
        supplied = none_supplied;
      };
      unit = u.unit;
      error = u.error;
      unsupported = u.unsupported;
    } };

    ghost invariant = { λ u. IsQueued (record {
      queue = record {
        geometry = u.prod.geometry;
        memory = u.memory.items;
        shown = u.shown;
        consumed = taken u.unit.counts;
        stopped = seen_at u.seen (taken u.unit.counts);
        gerrorn = u.gerrorn;
        lost = u.lost;
        repeated = u.repeated;
        read = u.read;
        supplied = none_supplied;
      };
      unit = u.unit;
      error = u.error;
      unsupported = u.unsupported;
    }) u.prod u.cons u.seen };
}

impl UnitQueue {
    /// Creates a queue of these many slots, with a unit that has these empty caches.
    pub fn new(alloc: Global, geometry: Geometry, caches: Caches) -> Result<UnitQueue, AllocError>
        requires { caches.entries ≡ held [] }
        ensures new { IfOk result (λ u. IsNew u.queue geometry) }
        ensures unit { IfOk result (λ u. u.unit ≡ new_unit caches) }
        ensures unsupported { IfOk result (λ u. u.unsupported ≡ None) }
    {
        let nothing = Raw { lo: 0, hi: 0 };
        let memory = vec![in alloc; nothing; geometry.size() as usize]?;
        let start = Index::new(geometry, 0).unwrap();
        Ok(UnitQueue {
            memory,
            prod: start,
            cons: start,
            unit: Unit::new(caches),
            error: false,
            gerrorn: 0,
            seen: false,
            unsupported: None,
            shown: Tape::new(),
            lost: Positions::new(),
            repeated: Positions::new(),
            read: Reads::new(),
        })
    }
}

impl UnitQueue {
    /// Puts in an entry that is born now.
    ///
    /// Errors: those of a unit's `fill`, each leaving the queue as it was.
    pub fn fill(&mut self, tag: Tag, value: u64) -> Result<Option<Entry>, CacheFault>
        ensures answer { IsFillAnswer self.old.unit.caches tag result }
        ensures ok { OnOk result (self.new
            ≡ record self.old {
              unit = with_entries self.old.unit
                  (filled tag value self.old.unit);
            }) }
        ensures err { OnErr result (self.new ≡ self.old) }
    {
        self.unit.fill(tag, value)
    }

    /// Has it call these words illegal from now on, as an SMMU does that lacks what they ask for.
    pub fn set_unsupported(&mut self, raw: Raw)
        ensures { self.new ≡ record self.old { unsupported = Some raw } }
    {
        self.unsupported = Some(raw);
    }

    /// Returns the entry held under `tag`, if any.
    pub fn lookup(&self, tag: &Tag) -> Option<Entry>
        ensures { result ≡ finite.get self.now.unit.caches.entries tag.now }
    {
        self.unit.lookup(tag)
    }

    /// A witness, for whoever has it behind a `Forwarder`: where `Forwarder::told` says that a sender was told truly, no
    /// entry is older than a command that was reserved before that CMD_SYNC and covers it, unless the command was written
    /// over. It does nothing.
    pub fn no_older_entry_is_held(&self)
        ensures { ToldMeansNoneIsOlder self.now }
    {
        let _ = &self.cons;
    }

    /// Whether it is stopped at an illegal command.
    fn is_stopped(&self) -> bool
        ensures { IsTrue result ↔ IsStopped self.now }
    {
        self.error != (self.gerrorn % 2 == 1)
    }

    /// SMMU_GERRORN with CMDQ_ERR as SMMU_GERROR has it.
    fn acknowledged(&self) -> u32
        ensures { self.now.error ≡ command_queue_error result }
    {
        let others = self.gerrorn - self.gerrorn % 2;
        if self.error { others + 1 } else { others }
    }

    /// Whether it calls a command illegal.
    fn calls_illegal(&self, raw: Raw) -> bool
        ensures illegal { IsTrue result → IsCalledIllegal self.now raw }
        ensures legal { result ≡ false → ¬ IsCalledIllegal self.now raw }
        ensures words { result ≡ false → first_ill_of raw ≡ None }
    {
        first_ill(raw).is_some() || self.unsupported == Some(raw)
    }

    /// How many commands were shown and aren't consumed.
    fn in_flight(&self) -> u32
        ensures { self.now.queue.consumed + result ≡ length self.now.queue.shown }
    {
        indexes_tell_the_queue();
        self.prod.distance(self.cons)
    }

    /// Whether it isn't stopped, was shown a command, and its unit takes more.
    fn may_consume(&self) -> bool
        ensures { IsTrue result ↔ MayConsume self.now }
    {
        let takes_more = self.unit.counts().taken() < MOST_RESERVED;
        !self.is_stopped() && self.in_flight() > 0 && takes_more
    }

    /// Consumes the next command if it is legal, and else stops at it.
    fn consume(&mut self)
        ensures moved { HasMoved self.old self.new }
        ensures gone_on { HasGoneOn self.old self.new }
    {
        if !self.may_consume() {
            return;
        }
        let raw = self.memory[self.cons.place() as usize];
        if self.calls_illegal(raw) {
            self.error = !self.error;
            return;
        }
        let Verdict::Applied { .. } = self.unit.judge(raw) else {
            unreachable!();
        };
        self.cons = self.cons.forward(1);
    }
}

impl UnitQueue {
    /// SMMU_CMDQ_CONS: RD, and CERROR_ILL in ERR while it is stopped.
    fn cons_word(&self) -> u32
        ensures { IsConsOf result self.now }
    {
        if self.is_stopped() {
            return (1 << 24) + self.cons.get();
        }
        self.cons.get()
    }
}

impl CommandQueue for UnitQueue {
    ghost use Rattle.unit_queue.specs.Queued.{HasEffect};

    ghost queue = { λ u. u.queue };

    ghost has_effect = { HasEffect };

    fn write(&mut self, slot: u32, raw: Raw)
        requires { IsFree self.old.queue slot }
        ensures written { self.new.queue ≡ written slot raw self.old.queue }
        ensures rest { self.new ≡ record self.old { queue = self.new.queue } }
    {
        memory_stands();
        self.memory[slot as usize] = raw;
    }

    fn overwrite(&mut self, slot: u32)
        requires { IsOfIllegal self.old.queue slot }
        ensures overwritten { self.new.queue ≡ overwritten slot self.old.queue }
        ensures rest { self.new ≡ record self.old { queue = self.new.queue } }
    {
        memory_stands();
        self.memory[slot as usize] = Raw { lo: 0x46, hi: 0 };
        self.lost.add(self.unit.counts().taken());
    }

    fn show_prod(&mut self, prod: u32)
        requires { MayShow prod self.old.queue }
        ensures shown { self.new.queue ≡ shown_up_to prod self.old.queue }
        ensures rest { self.new ≡ record self.old { queue = self.new.queue } }
    {
        memory_stands();
        let index = Index::new(self.prod.geometry(), prod).unwrap();
        let count = index.distance(self.prod);
        note_shown(&mut self.shown, self.memory.as_slice(), self.prod, count);
        self.prod = self.prod.forward(count);
    }

    fn read_cons(&mut self) -> u32
        ensures read { HasReadCons self.old.queue self.new.queue result }
        ensures gone_on { HasReadGoneOn self.old self.new result }
    {
        indexes_tell_the_queue();
        self.consume();
        let word = self.cons_word();
        self.read.add(Reading::Cons(word));
        word
    }

    fn read_gerror(&mut self) -> u32
        ensures read { HasReadErrors self.old.queue self.new.queue result }
        ensures bit { self.old.error ≡ command_queue_error result }
        ensures rest { self.new ≡ record self.old { queue = self.new.queue } }
    {
        if self.is_stopped() {
            self.seen = true;
        }
        let word = u32::from(self.error);
        self.read.add(Reading::Gerror(word));
        word
    }

    fn read_gerrorn(&mut self) -> u32
        ensures read { HasReadAcknowledged self.old.queue self.new.queue result }
        ensures rest { self.new ≡ record self.old { queue = self.new.queue } }
    {
        self.read.add(Reading::Gerrorn(self.gerrorn));
        self.gerrorn
    }

    fn write_gerrorn(&mut self, word: u32)
        requires { MayAcknowledge word self.old.queue }
        ensures acknowledged { self.new.queue ≡ acknowledged_by word self.old.queue }
        ensures rest { self.new ≡ record self.old { queue = self.new.queue } }
    {
        self.seen = false;
        self.gerrorn = word;
    }

    fn restart(&mut self, prod: u32, cons: u32) -> u32
        requires { MayRestart prod cons self.old.queue }
        ensures restarted { HasRestarted self.old.queue self.new.queue result }
        ensures rest { self.new ≡ record self.old { queue = self.new.queue } }
    {
        let _ = (prod, cons);
        self.gerrorn = self.acknowledged();
        self.seen = false;
        self.repeated.add(self.unit.counts().taken());
        self.read.add(Reading::Gerrorn(self.gerrorn));
        self.gerrorn
    }

    fn syncs_complete(&self) {
        let _ = &self.cons;
    }
}
