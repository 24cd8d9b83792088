//! What one sender knows at run time: what its own trail says, in a bounded size.
ghost use Rattle.std.specs.Prelude.{◌≡◌, ◌==◌, ◌+◌, ◌≤◌, ◌<◌, ◌&&◌, not, Bool, List, [], ◌∷◌, ℕ, length, Some, IfSome, slice_get};
ghost use Rattle.std.specs.List.{list_any, list_all};
ghost use Rattle.cmdcodec.specs.declared.raw.Raw.{Raw};
ghost use Rattle.cmdcodec.specs.Opcodes.{is_sync};
ghost use Rattle.cmdcodec.specs.Bodies.{most_batches};
ghost use Rattle.qindex.specs.Positions.{size};
ghost use Rattle.qindex.specs.ControlWord.{IsControl};
ghost use Rattle.qindex.specs.declared.control.Control.{Control};
ghost use Rattle.ringcore.specs.Limits.{most_senders};
ghost use Rattle.ringcore.specs.declared.machine.sender_view.Progress.{Progress};
ghost use Rattle.ringcore.specs.declared.world.event.Who.TheVariants.{Sender};
ghost use Rattle.ringcore.specs.declared.world.event.Half.TheVariants.{Lo, Hi};
ghost use Rattle.ringcore.specs.declared.world.event.Event.TheVariants.{Look, Won, Lost, Write, Flip};
ghost use Rattle.ringcore.specs.world.Trails.{Run, looked, trail_of, batches_made, reserved_length, has_written, has_flipped};
ghost use Rattle.ringcore.specs.world.World.{tail, world};
ghost use Rattle.ringcore.specs.memory.StepLaws.{reserved_commands};
ghost use Rattle.ringcore.specs.world.Allowed.{Ring};
ghost use Rattle.ringcore.specs.machine.Open.{some_below, all_below, is_open, holds, own_offset};
ghost use Rattle.ringcore.specs.machine.Faults.{reserve_fault, is_body, has_room};
ghost use Rattle.ringcore.specs.machine.StepAnswers.{is_same_word, next_number};
ghost use Rattle.ringcore.specs.machine.SenderViews.{Knows, WhereKnown, AreFlipped};

use crate::machine::StepFault;
use crate::machine::commands::fill_with_batch;
use crate::machine::slot_offset::offset_of_slot;
use crate::world::Half;
use cmdcodec::{MOST_BATCH_COMMANDS, MOST_BATCHES, MOST_BODY_COMMANDS, Raw, RawList};
use qindex::{Control, Geometry};
use std::marker::Model;

/// What is done of a command of a reservation.
#[derive(Clone, Copy)]
pub struct Progress {
    lo: bool,
    hi: bool,
    flipped: bool,
}

/// A command with nothing done.
const UNTOUCHED: Progress = Progress {
    lo: false,
    hi: false,
    flipped: false,
};

/// What one sender knows at run time: what it looked at since its last exchange, how many batches it made,
/// where its last reservation starts, and what that holds and how far it is.
#[derive(Drop)]
pub struct SenderView {
    looked: Option<Control>,
    batches: u32,
    numbers: u32,
    start: u64,
    commands: RawList,
    progress: [Progress; MOST_BATCH_COMMANDS],
}

impl Model for SenderView {
    ghost use Rattle.ringcore.specs.machine.SenderViews.{SenderValue, IsBounded};

    ghost Value = { SenderValue };

    ghost view = { λ v. record { looked = v.looked; batches = v.batches; numbers = v.numbers; start = v.start; commands = v.commands.items; progress = v.progress } };

    ghost invariant = { λ v. IsBounded (record { looked = v.looked; batches = v.batches; numbers = v.numbers; start = v.start; commands = v.commands.items; progress = v.progress }) };
}

impl SenderView {
    /// What a sender knows before its first step.
    pub fn new() -> SenderView
        ensures { (s : ℕ) → Knows [] s result }
    {
        SenderView {
            looked: None,
            batches: 0,
            numbers: 0,
            start: 0,
            commands: RawList::new(),
            progress: [UNTOUCHED; MOST_BATCH_COMMANDS],
        }
    }

    /// Notes what a look found.
    pub fn looks(&mut self, found: &Control)
        ensures { (run : Run) (s : ℕ) → Knows run s self.old → Knows ((Sender s, Look found.now) ∷ run) s self.new }
    {
        self.looked = Some(*found);
    }

    /// Notes an exchange that was lost: the look before it is used up.
    pub fn loses(&mut self)
        ensures { (run : Run) (s : ℕ) (body : List Raw) (closes : Bool) (found : Control) → Knows run s self.old → Knows ((Sender s, Lost body closes found) ∷ run) s self.new }
    {
        self.looked = None;
    }

    /// Notes a batch that was reserved from this position on, and returns the number of its closing sync, if
    /// it has one.
    pub fn wins(&mut self, sender: u32, body: &[Raw], closes: bool, start: u64) -> Option<u32>
        requires sender { sender < most_senders }
        requires body { length body.now ≤ 63 }
        requires batches { self.old.batches < most_batches }
        ensures number { WhereKnown self.old (λ run s mine. result ≡ next_number mine closes) }
        ensures view { (run : Run) → Knows run sender self.old → start ≡ tail (world run) → Knows ((Sender sender, Won body.now result) ∷ run) sender self.new }
    {
        let number = self.next_number(closes);
        self.looked = None;
        self.batches += 1;
        self.numbers += u32::from(closes);
        self.start = start;
        fill_with_batch(&mut self.commands, sender, body, number);
        self.progress = [UNTOUCHED; MOST_BATCH_COMMANDS];
        number
    }

    /// Notes a half of its reservation that is written.
    pub fn writes(&mut self, offset: u32, half: Half)
        requires { offset < 64 }
        ensures { (run : Run) (s : ℕ) → Knows run s self.old → Knows ((Sender s, Write offset half) ∷ run) s self.new }
    {
        match half {
            Half::Lo => self.progress[offset as usize].lo = true,
            Half::Hi => self.progress[offset as usize].hi = true,
        }
    }

    /// Notes `count` commands of its reservation, from this offset on, that are flipped.
    pub fn flips(&mut self, offset: u32, count: u32)
        requires { offset + count ≤ 64 }
        ensures { (run : Run) (s : ℕ) → Knows run s self.old → Knows ((Sender s, Flip offset count) ∷ run) s self.new }
    {
        mark_flipped(&mut self.progress, offset as usize, count as usize);
    }

    /// Returns how many batches it made.
    pub fn batches(&self) -> u32
        ensures { WhereKnown self.now (λ run s mine. result ≡ batches_made mine) }
    {
        self.batches
    }

    /// Returns how many commands its last reservation has.
    pub fn len(&self) -> u32
        ensures reservation { WhereKnown self.now (λ run s mine. result ≡ reserved_length mine) }
        ensures commands { result ≡ length self.now.commands }
        ensures most { result ≤ 64 }
    {
        self.commands.as_slice().len() as u32
    }

    /// Returns the position at which its last reservation starts.
    pub fn start(&self) -> u64
        ensures { WhereKnown self.now (λ run s mine. result ≡ (world run).start s) }
    {
        self.start
    }

    /// Whether its last reservation is open: not all of it is flipped.
    pub fn is_open(&self) -> bool
        ensures { WhereKnown self.now (λ run s mine. result ≡ is_open mine) }
    {
        let many = self.commands.as_slice().len();
        any_unflipped(&self.progress[..many])
    }

    /// Whether its open reservation holds a position.
    pub fn holds(&self, position: u64) -> bool
        ensures { WhereKnown self.now (λ run s mine. result ≡ holds run s position) }
    {
        self.is_open() && self.start <= position && position - self.start < u64::from(self.len())
    }

    /// Returns the offset of a slot in its open reservation, if that holds the slot.
    pub fn offset_of(&self, geometry: Geometry, slot: u32) -> Option<u32>
        requires { slot < size geometry }
        ensures offset { (ring : Ring) → ring.geometry ≡ geometry → WhereKnown self.now (λ run s mine. result ≡ own_offset ring run s slot) }
        ensures inside { IfSome result (λ offset. (offset < length self.now.commands) × (offset < 64)) }
    {
        if self.is_open() {
            offset_of_slot(geometry, self.start, self.len(), slot)
        } else {
            None
        }
    }

    /// Whether any of `count` commands of its reservation, from this offset on, is flipped.
    pub fn any_flipped(&self, offset: u32, count: u32) -> bool
        requires { offset + count ≤ 64 }
        ensures { WhereKnown self.now (λ run s mine. offset + count ≤ reserved_length mine → result ≡ some_below count (λ k. has_flipped (offset + k) mine)) }
    {
        let offset = offset as usize;
        any_flipped(&self.progress[offset..offset + count as usize])
    }

    /// Whether both halves of each of `count` commands of its reservation, from this offset on, are written.
    pub fn all_written(&self, offset: u32, count: u32) -> bool
        requires { offset + count ≤ 64 }
        ensures { WhereKnown self.now (λ run s mine. offset + count ≤ reserved_length mine → result ≡ all_below count (λ k. has_written (offset + k) Lo mine && has_written (offset + k) Hi mine)) }
    {
        let offset = offset as usize;
        all_written(&self.progress[offset..offset + count as usize])
    }

    /// Returns the command at this offset of its reservation.
    pub fn command(&self, offset: u32) -> Raw
        requires { offset < length self.now.commands }
        ensures { WhereKnown self.now (λ run s mine. slice_get (reserved_commands s mine) offset ≡ Some result) }
    {
        self.commands.as_slice()[offset as usize]
    }

    /// Whether this is what it looked at since its last exchange.
    pub fn expects(&self, found: &Control) -> bool
        ensures { WhereKnown self.now (λ run s mine. result ≡ is_same_word (looked mine) found.now) }
    {
        match &self.looked {
            None => false,
            Some(before) => before.pack() == found.pack(),
        }
    }

    /// Returns the number of the closing sync of its next batch, if that has one.
    pub fn next_number(&self, closes: bool) -> Option<u32>
        requires { self.now.batches < most_batches }
        ensures { WhereKnown self.now (λ run s mine. result ≡ next_number mine closes) }
    {
        if closes { Some(self.numbers + 1) } else { None }
    }

    /// Returns why a reserve of this body is refused, or `None` if it isn't. What it looked at must be of
    /// this geometry.
    pub fn reserve_fault(&self, geometry: Geometry, body: &[Raw], closes: bool) -> Option<StepFault>
        requires { (found : Control) → self.now.looked ≡ Some found → IsControl geometry found }
        ensures { (ring : Ring) → ring.geometry ≡ geometry → ring.max_batches ≡ most_batches → WhereKnown self.now (λ run s mine. result ≡ reserve_fault ring mine body.now closes) }
    {
        if self.is_open() || self.batches == MOST_BATCHES {
            return Some(StepFault::NotSettled);
        }
        if !is_body(body) {
            return Some(StepFault::BadBody);
        }
        let many = body.len() as u32 + u32::from(closes);
        if has_room(geometry, &self.looked, many) {
            None
        } else {
            Some(StepFault::NoRoom)
        }
    }
}

fn any_unflipped(commands: &[Progress]) -> bool
    ensures { result ≡ list_any (λ (command : Progress). not command.flipped) commands.now }
{
    commands.iter().any(|command| !command.flipped)
}

fn any_flipped(commands: &[Progress]) -> bool
    ensures { result ≡ list_any (λ (command : Progress). command.flipped) commands.now }
{
    commands.iter().any(|command| command.flipped)
}

fn all_written(commands: &[Progress]) -> bool
    ensures { result ≡ list_all (λ (command : Progress). command.lo && command.hi) commands.now }
{
    commands.iter().all(|command| command.lo && command.hi)
}

/// Marks `count` commands, from `first` on, as flipped.
fn mark_flipped(commands: &mut [Progress], first: usize, count: usize)
    requires { first + count ≤ length commands.old }
    ensures { AreFlipped commands.old commands.new first count }
{
    for place in first..first + count {
        commands[place].flipped = true;
    }
}

/// Whether a batch may have this body: 1 to 63 commands, none of them a CMD_SYNC.
fn is_body(body: &[Raw]) -> bool
    ensures { result ≡ is_body body.now }
{
    if body.is_empty() {
        return false;
    }
    body.len() <= MOST_BODY_COMMANDS && !any_sync(body)
}

fn any_sync(body: &[Raw]) -> bool
    ensures { result ≡ list_any is_sync body.now }
{
    body.iter().any(|raw| raw.is_sync())
}

/// Whether by this look the ring is open and has room for this many commands.
fn has_room(geometry: Geometry, looked: &Option<Control>, many: u32) -> bool
    requires few { many ≤ 64 }
    requires control { (found : Control) → looked.now ≡ Some found → IsControl geometry found }
    ensures { (ring : Ring) → ring.geometry ≡ geometry → result ≡ has_room ring looked.now many }
{
    match looked {
        None => false,
        Some(found) => !found.closed && found.prod.distance(found.cons) + many <= geometry.size(),
    }
}
