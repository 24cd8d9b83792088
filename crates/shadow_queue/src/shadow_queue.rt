//! The copy of a queue.
ghost use Rattle.std.specs.Prelude.{◌≡◌, ◌+◌, ◌-◌, ◌<◌, ◌≤◌, ◌↔◌, ◌≢◌, ◌++◌, ℕ, IsTrue, IfOk, IfSome, IfNone, Some, drop, length};
ghost use Rattle.qindex.specs.Positions.{place, index_of};
ghost use Rattle.hardware_queue.specs.Queues.{IsAtStop, IsErrorActive, Stop, newly_consumed, repeated_after, MayRestart, HasRestarted};
ghost use Rattle.hardware_queue.specs.Owners.{IsNew};
ghost use Rattle.shadow_queue.specs.Shadows.{IsBlank, IsStopWithin, IsUnlostFrom, stop_of};
ghost use Rattle.shadow_queue.specs.Messages.{message_of, IsToldUpTo, AreToldBy};

use crate::newest::copy_from;
use crate::seen_stop::SeenStop;
use cmdcodec::Raw;
use hardware_queue::{
    CommandError, CommandQueue, Positions, Reading, Reads, RegisterWords, SuppliedQueue, Tape,
    memory_stands, newly_consumed, note_shown,
};
use qindex::{Geometry, Index, indexes_tell_place_and_wrap_bit, indexes_tell_the_queue};
use std::alloc::{AllocError, Global};
use std::marker::Model;
use std::snapshot::Snapshot;

/// How many values the data of an MSI has.
const STRIDE: u64 = 1 << 32;

/// A copy of a queue's memory, and what its owner knows of its registers.
#[derive(Drop)]
pub struct ShadowQueue {
    memory: Vec<Raw>,
    /// SMMU_CMDQ_PROD, as it was written last.
    prod: Index,
    /// SMMU_CMDQ_CONS.RD, as it was asked for last.
    cons: Index,
    consumed: u64,
    stopped: Option<SeenStop>,
    /// SMMU_GERRORN, as it was asked for or written last.
    gerrorn: u32,
    /// What it answers with.
    words: RegisterWords,
    gerrorn_word: u32,
    before: Snapshot<Reads>,
    /// How many commands the hardware was told to read again, by restarts, modulo 2^32.
    again: u32,
    shown: Tape,
    lost: Positions,
    repeated: Positions,
    read: Reads,
}

impl Model for ShadowQueue {
    ghost use Rattle.hardware_queue.specs.Queues.{QueueValue};
    ghost use Rattle.shadow_queue.specs.Shadows.{IsShadow, stop_of};

    ghost Value = { QueueValue };

    ghost view = { λ s. record {
      geometry = s.prod.geometry;
      memory = s.memory.items;
      shown = s.shown;
      consumed = s.consumed;
      stopped = stop_of s.stopped;
      gerrorn = s.gerrorn;
      lost = s.lost;
      repeated = s.repeated;
      read = s.read;
      supplied = record { words = s.words; gerrorn = s.gerrorn_word; before = s.before.value; again = s.again };
    } };

    ghost invariant = { λ s. IsShadow (record {
      geometry = s.prod.geometry;
      memory = s.memory.items;
      shown = s.shown;
      consumed = s.consumed;
      stopped = stop_of s.stopped;
      gerrorn = s.gerrorn;
      lost = s.lost;
      repeated = s.repeated;
      read = s.read;
      supplied = record { words = s.words; gerrorn = s.gerrorn_word; before = s.before.value; again = s.again };
    }) s.prod s.cons };
}

/// Notes where it stopped, if it repeats the CMD_SYNC there.
fn note_repeated(repeated: &mut Positions, stopped: Option<SeenStop>)
    ensures { repeated.new ≡ repeated_after (stop_of stopped) repeated.old }
{
    if let Some(
        SeenStop {
            position,
            error: CommandError::AtcInvSync,
        },
    ) = stopped
    {
        repeated.add(position);
    }
}

impl ShadowQueue {
    /// Creates the copy of a queue of these many slots that has not begun: SMMU_CMDQ_PROD and SMMU_CMDQ_CONS are 0, and
    /// CMDQ_ERR of SMMU_GERROR and SMMU_GERRORN too.
    pub fn new(alloc: Global, geometry: Geometry) -> Result<ShadowQueue, AllocError>
        ensures new { IfOk result (λ s. IsNew s geometry) }
        ensures blank { IfOk result IsBlank }
    {
        let nothing = Raw { lo: 0, hi: 0 };
        let memory = vec![in alloc; nothing; geometry.size() as usize]?;
        let start = Index::new(geometry, 0).unwrap();
        let read = Reads::new();
        Ok(ShadowQueue {
            memory,
            prod: start,
            cons: start,
            consumed: 0,
            stopped: None,
            gerrorn: 0,
            words: RegisterWords { gerror: 0, cons: 0 },
            gerrorn_word: 0,
            before: Snapshot::of(&read),
            again: 0,
            shown: Tape::new(),
            lost: Positions::new(),
            repeated: Positions::new(),
            read,
        })
    }

    /// Copies the commands that the hardware was shown last, so many, to the beginning of a buffer.
    pub fn copy_newest(&self, count: u32, buffer: &mut [Raw])
        requires room { count ≤ length buffer.old }
        requires shown { self.now.consumed + count ≤ length self.now.shown }
        ensures { IsUnlostFrom (length self.now.shown - count) self.now
            → buffer.new
            ≡ drop (length self.now.shown - count) self.now.shown ++ drop count buffer.old }
    {
        let start = self.cons.forward(self.in_flight() - count);
        copy_from(self.memory.as_slice(), start, count, buffer);
    }

    /// Returns the slot of the command that is shown next.
    pub fn free_slot(&self) -> u32
        ensures { result ≡ place self.now.geometry (length self.now.shown) }
    {
        self.prod.place()
    }

    /// Returns the value of SMMU_CMDQ_PROD.
    pub fn prod(&self) -> u32
        ensures { result ≡ (index_of self.now.geometry (length self.now.shown)).number }
    {
        self.prod.get()
    }

    /// Returns the data for the MSI of a CMD_SYNC, if that is the command which is shown next.
    pub fn next_message(&self) -> u32
        ensures { result ≡ message_of (length self.now.shown + 1) self.now }
    {
        self.message_with(self.in_flight()).wrapping_add(1)
    }

    /// Returns the data for the MSI of the first command that isn't known to be consumed, if that is a CMD_SYNC.
    pub fn first_message(&self) -> u32
        ensures { result ≡ message_of (self.now.consumed + 1) self.now }
    {
        self.message_with(1)
    }

    /// Returns what an MSI says once so many more commands are consumed.
    fn message_with(&self, count: u32) -> u32
        ensures { result ≡ message_of (self.now.consumed + count) self.now }
    {
        let consumed = (self.consumed % STRIDE) as u32;
        consumed.wrapping_add(count).wrapping_add(self.again)
    }

    /// Returns what the registers have, with no error active, once the hardware has consumed what an MSI tells: so many
    /// commands, with those that it was told to read again by restarts, as `message` says, modulo 2^32. `None` if that is
    /// behind what is known to be consumed, as of an MSI of before a restart, or ahead of what was shown.
    pub fn words_told(&self, message: u32) -> Option<RegisterWords>
        ensures told { IfSome result (AreToldBy message self.now) }
        ensures untold { IfNone result
            ((position : ℕ) → ¬ IsToldUpTo position message self.now) }
    {
        indexes_tell_the_queue();
        let known = u64::from(self.message_with(0));
        let count = (u64::from(message) + STRIDE - known) % STRIDE;
        if count > u64::from(self.in_flight()) {
            return None;
        }
        let cons = self.cons.forward(count as u32).get();
        Some(RegisterWords {
            gerror: self.gerrorn,
            cons,
        })
    }

    /// A witness that what is lost was shown, and what is consumed too. It does nothing.
    pub fn lost_were_shown(&self)
        ensures lost { IsUnlostFrom (length self.now.shown) self.now }
        ensures consumed { self.now.consumed ≤ length self.now.shown }
    {
        let _ = &self.cons;
    }

    /// Returns how many commands were shown and aren't known to be consumed.
    fn in_flight(&self) -> u32
        ensures { self.now.consumed + result ≡ length self.now.shown }
    {
        indexes_tell_the_queue();
        self.prod.distance(self.cons)
    }

    /// Whether a value of SMMU_GERROR tells of an error, with commands in flight.
    fn is_error_active(&self, gerror: u32) -> bool
        ensures { IsTrue result ↔ IsErrorActive gerror self.now }
    {
        let in_flight = self.in_flight();
        (gerror % 2 == 1) != (self.gerrorn % 2 == 1) && in_flight > 0
    }

    /// Whether a command is left at which the hardware can have stopped, once so many more are consumed, if a value of
    /// SMMU_GERROR tells of an error.
    fn leaves_the_stop(&self, gerror: u32, count: u32) -> bool
        ensures { IsTrue result ↔ (IsErrorActive gerror self.now
            → self.now.consumed + count < length self.now.shown) }
    {
        let in_flight = self.in_flight();
        !self.is_error_active(gerror) || count < in_flight
    }

    /// Returns where it is stopped, once SMMU_GERROR is read with this value.
    fn stop_by(&self, gerror: u32) -> Option<SeenStop>
        ensures stays { (stop : Stop) → self.now.stopped ≡ Some stop → stop_of result ≡ Some stop }
        ensures active { IsErrorActive gerror self.now
            → ((stop : Stop) × (stop_of result ≡ Some stop)) }
        ensures inside { gerror ≡ self.now.supplied.words.gerror
            → (stop : Stop) → stop_of result ≡ Some stop → IsStopWithin self.now stop }
        ensures there { (stop : Stop) → stop_of result ≡ Some stop
            → IsAtStop self.now.supplied.words.cons self.now stop }
    {
        if self.stopped.is_some() || !self.is_error_active(gerror) {
            return self.stopped;
        }
        let cons = self.words.cons;
        let count = newly_consumed(cons, self.prod, self.cons).unwrap();
        let position = self.consumed + u64::from(count);
        let error = CommandError::of(cons);
        Some(SeenStop { position, error })
    }

    /// Whether a stop that was seen is where it was, by a value of SMMU_CMDQ_CONS that has consumed so many more.
    fn stays_stopped(&self, cons: u32, count: u32) -> bool
        requires { count ≡ newly_consumed cons self.now }
        ensures { IsTrue result ↔ ((stop : Stop) → self.now.stopped ≡ Some stop
            → IsAtStop cons self.now stop) }
    {
        let Some(seen) = self.stopped else {
            return true;
        };
        let position = self.consumed.checked_add(u64::from(count));
        position == Some(seen.position) && CommandError::of(cons) == seen.error
    }
}

impl CommandQueue for ShadowQueue {
    ghost use Rattle.shadow_queue.specs.Shadows.{IsBehindSync};

    ghost queue = { λ s. s };

    ghost has_effect = { IsBehindSync };

    fn write(&mut self, slot: u32, raw: Raw) {
        memory_stands();
        self.memory[slot as usize] = raw;
    }

    fn overwrite(&mut self, slot: u32) {
        memory_stands();
        self.memory[slot as usize] = Raw { lo: 0x46, hi: 0 };
        self.lost.add(self.consumed);
    }

    fn show_prod(&mut self, prod: u32) {
        memory_stands();
        let index = Index::new(self.prod.geometry(), prod).unwrap();
        let count = index.distance(self.prod);
        note_shown(&mut self.shown, self.memory.as_slice(), self.prod, count);
        self.prod = self.prod.forward(count);
    }

    fn read_cons(&mut self) -> u32 {
        indexes_tell_place_and_wrap_bit();
        indexes_tell_the_queue();
        let word = self.words.cons;
        let count = newly_consumed(word, self.prod, self.cons).unwrap();
        self.cons = self.cons.forward(count);
        self.consumed += u64::from(count);
        self.read.add(Reading::Cons(word));
        word
    }

    fn read_gerror(&mut self) -> u32 {
        let word = self.words.gerror;
        self.stopped = self.stop_by(word);
        self.read.add(Reading::Gerror(word));
        word
    }

    fn read_gerrorn(&mut self) -> u32 {
        let others = self.gerrorn_word - self.gerrorn_word % 2;
        self.gerrorn = others + self.gerrorn % 2;
        self.read.add(Reading::Gerrorn(self.gerrorn));
        self.gerrorn
    }

    fn write_gerrorn(&mut self, word: u32) {
        note_repeated(&mut self.repeated, self.stopped);
        self.stopped = None;
        self.gerrorn = word;
    }

    fn restart(&mut self, prod: u32, cons: u32) -> u32
        requires { MayRestart prod cons self.old }
        ensures restarted { HasRestarted self.old self.new result }
        ensures supplied { result ≡ self.old.supplied.gerrorn }
    {
        let gerrorn = self.gerrorn_word;
        self.restart_with(prod, cons, gerrorn);
        gerrorn
    }

    fn syncs_complete(&self) {
        let _ = &self.cons;
    }
}

impl SuppliedQueue for ShadowQueue {
    fn can_have(&self, words: RegisterWords) -> bool {
        let Some(count) = newly_consumed(words.cons, self.prod, self.cons) else {
            return false;
        };
        self.stays_stopped(words.cons, count)
            && self.leaves_the_stop(words.gerror, count)
            && self.consumed <= u64::MAX - u64::from(count)
    }

    fn supply(&mut self, words: RegisterWords) {
        self.words = words;
        self.before = Snapshot::of(&self.read);
    }

    fn supply_gerrorn(&mut self, word: u32) {
        self.gerrorn_word = word;
        self.before = Snapshot::of(&self.read);
    }

    fn restart_with(&mut self, _prod: u32, _cons: u32, gerrorn: u32) {
        self.again = self.again.wrapping_add(self.in_flight());
        self.repeated.add(self.consumed);
        self.stopped = None;
        self.gerrorn = gerrorn;
        self.read.add(Reading::Gerrorn(gerrorn));
        self.words = RegisterWords {
            gerror: gerrorn,
            cons: self.cons.get(),
        };
        self.before = Snapshot::of(&self.read);
    }

    fn answers_are_supplied(&self) {
        let _ = &self.cons;
    }
}
