//! What the consumer knows at run time: what its own trail says, in a bounded size.
ghost use Rattle.std.specs.Prelude.{◌≡◌, ◌+◌, ◌≤◌, ◌<◌, ◌^◌, ◌&&◌, ℕ, List, [], ◌∷◌, length, Option, Some, None, is_some};
ghost use Rattle.std.specs.List.{list_all};
ghost use Rattle.cmdcodec.specs.declared.raw.Raw.{Raw};
ghost use Rattle.qindex.specs.Positions.{size};
ghost use Rattle.ringcore.specs.declared.machine.consumer_view.ReadHalves.{ReadHalves};
ghost use Rattle.ringcore.specs.declared.world.event.Who.TheVariants.{Consumer};
ghost use Rattle.ringcore.specs.declared.world.event.Half.TheVariants.{Lo, Hi};
ghost use Rattle.ringcore.specs.declared.world.event.Event.TheVariants.{Test, Read, Advance};
ghost use Rattle.ringcore.specs.world.Trails.{Run, found_ready, half_read};
ghost use Rattle.ringcore.specs.world.World.{head, world};
ghost use Rattle.ringcore.specs.world.Allowed.{Ring};
ghost use Rattle.ringcore.specs.machine.Faults.{advance_fault, tested_offset};
ghost use Rattle.ringcore.specs.machine.ConsumerViews.{ConsumerKnows, WhereConsumerKnows, AreUnread, SameButRead, both_halves, command_at};

use crate::limits::FLAGS;
use crate::machine::StepFault;
use crate::machine::slot_offset::offset_of_slot;
use crate::world::Half;
use cmdcodec::Raw;
use qindex::Geometry;
use std::marker::Model;

/// The most commands that a test can find: it reads one flag word.
const MOST_COMMANDS: usize = FLAGS as usize;

/// What was read of a command.
#[derive(Clone, Copy)]
pub struct ReadHalves {
    lo: Option<u64>,
    hi: Option<u64>,
}

/// A command with nothing read.
const UNREAD: ReadHalves = ReadHalves { lo: None, hi: None };

/// What the consumer knows at run time: how many commands are taken, how many the last test found from the
/// head on, and what was read of these since.
#[derive(Drop)]
pub struct ConsumerView {
    taken: u64,
    found: u32,
    read: [ReadHalves; MOST_COMMANDS],
    /// Nothing is read from this offset on, so that only what was read needs to be forgotten.
    read_end: usize,
}

impl Model for ConsumerView {
    ghost use Rattle.ringcore.specs.machine.ConsumerViews.{ConsumerValue, AreReadBelow};

    ghost Value = { ConsumerValue };

    ghost view = { λ v. record { taken = v.taken; found = v.found; read = v.read } };

    ghost invariant = { λ v. AreReadBelow v.read_end v.read };
}

impl ConsumerView {
    /// What the consumer knows before its first step.
    pub fn new() -> ConsumerView
        ensures { ConsumerKnows [] result }
    {
        ConsumerView {
            taken: 0,
            found: 0,
            read: [UNREAD; MOST_COMMANDS],
            read_end: 0,
        }
    }

    /// Returns how many commands are taken: the position of the head.
    pub fn taken(&self) -> u64
        ensures value { result ≡ self.now.taken }
        ensures head { WhereConsumerKnows self.now (λ run mine. result ≡ head (world run)) }
    {
        self.taken
    }

    /// Returns how many commands from the head on the last test found, or 0 if there was none since the last
    /// advance.
    pub fn found(&self) -> u32
        ensures value { result ≡ self.now.found }
        ensures ready { WhereConsumerKnows self.now (λ run mine. result ≡ found_ready mine) }
    {
        self.found
    }

    /// Notes how many a test found. Nothing counts as read any more.
    pub fn tests(&mut self, found: u32)
        ensures { (run : Run) (limit : ℕ) → ConsumerKnows run self.old → ConsumerKnows ((Consumer, Test limit found) ∷ run) self.new }
    {
        self.found = found;
        self.forget();
    }

    /// Notes a half that was read at this offset from the head.
    pub fn reads(&mut self, offset: u32, half: Half, word: u64)
        requires { offset < 64 }
        ensures { (run : Run) → ConsumerKnows run self.old → ConsumerKnows ((Consumer, Read offset half word) ∷ run) self.new }
    {
        let place = offset as usize;
        self.read_end = self.read_end.max(place + 1);
        let halves = &mut self.read[place];
        match half {
            Half::Lo => halves.lo = Some(word),
            Half::Hi => halves.hi = Some(word),
        }
    }

    /// Returns the command at this offset from the head if both halves of it were read.
    pub fn command(&self, offset: u32) -> Option<Raw>
        requires { offset < 64 }
        ensures value { result ≡ command_at self.now offset }
        ensures trail { WhereConsumerKnows self.now (λ run mine. result ≡ both_halves (half_read offset Lo mine) (half_read offset Hi mine)) }
    {
        let halves = self.read[offset as usize];
        Some(Raw {
            lo: halves.lo?,
            hi: halves.hi?,
        })
    }

    /// Notes an advance past `count` commands. Nothing counts as tested or read any more.
    pub fn advances(&mut self, count: u32)
        requires { self.old.taken + count < 2 ^ 64 }
        ensures { (run : Run) (raws : List Raw) → length raws ≡ count → ConsumerKnows run self.old → ConsumerKnows ((Consumer, Advance raws) ∷ run) self.new }
    {
        self.taken += u64::from(count);
        self.found = 0;
        self.forget();
    }

    /// Forgets what was read.
    fn forget(&mut self)
        ensures same { SameButRead self.old self.new }
        ensures unread { AreUnread self.new.read }
    {
        let end = self.read_end;
        self.read[..end].fill(UNREAD);
        self.read_end = 0;
    }

    /// Returns the offset from the head of a slot, if the last test found it.
    pub fn tested_offset(&self, geometry: Geometry, slot: u32) -> Option<u32>
        requires { slot < size geometry }
        ensures { (ring : Ring) → ring.geometry ≡ geometry → WhereConsumerKnows self.now (λ run mine. result ≡ tested_offset ring run slot) }
    {
        offset_of_slot(geometry, self.taken, self.found, slot)
    }

    /// Returns why an advance past `count` commands is refused, or `None` if it isn't.
    pub fn advance_fault(&self, count: u32) -> Option<StepFault>
        requires some { 1 ≤ count }
        requires most { count ≤ 64 }
        ensures { WhereConsumerKnows self.now (λ run mine. result ≡ advance_fault mine count) }
    {
        if self.found < count {
            return Some(StepFault::NotSeenReady);
        }
        if all_read(&self.read[..count as usize]) {
            None
        } else {
            Some(StepFault::HalfMissing)
        }
    }
}

/// Whether both halves of each of these commands were read.
fn all_read(commands: &[ReadHalves]) -> bool
    ensures { result ≡ list_all (λ (halves : ReadHalves). is_some halves.lo && is_some halves.hi) commands.now }
{
    commands
        .iter()
        .all(|halves| halves.lo.is_some() && halves.hi.is_some())
}
