//! The steps of the consumer, and a sender's ask.
ghost use Rattle.std.specs.Prelude.{◌≡◌, ◌<◌, ◌≤◌, ◌==◌, ℕ, Some, None, Ok, IfOk, IfErr};
ghost use Rattle.qindex.specs.Positions.{size};
ghost use Rattle.ringcore.specs.declared.machine.step.Step.TheVariants.{Look, Test, Read, Advance, Acknowledge, Ask};
ghost use Rattle.ringcore.specs.world.World.{world};
ghost use Rattle.ringcore.specs.machine.Faults.{is_run_length, is_head, tested_offset, fault_of};
ghost use Rattle.ringcore.specs.machine.Core.{ring_of, AfterEachRun, HasNoFault, IsRefused, IsTakenOrRefused};

use crate::laws;
use crate::machine::places::half_of_number;
use crate::machine::{Core, Seen, StepFault};

impl Core {
    /// A load of the control word.
    pub(super) fn consumer_looks(&mut self) -> Seen
        ensures { IsTakenOrRefused self.old self.new (Look None) (Ok result) }
    {
        laws::look();
        Seen::Word(self.control())
    }

    /// A load of the head's flag word, which looks at `count` flags at most.
    ///
    /// Errors: F8 if there is no such slot, or the count isn't 1 to 64; F5 if the slot isn't the head's.
    #[inline]
    pub fn test(&mut self, slot: u32, count: u32) -> Result<Seen, StepFault>
        ensures { IsTakenOrRefused self.old self.new (Test slot count) result }
    {
        if let Some(fault) = self.test_fault(slot, count) {
            return Err(fault);
        }
        laws::test();
        laws::steps_law();
        let found = self.words.ready(self.control().cons, count);
        self.consumer.tests(found);
        Ok(Seen::Ready(found))
    }

    /// A load of a half of a slot: 0 (lo) or 1 (hi).
    ///
    /// Errors: F8 if there is no such slot or half; F5 if the slot is neither the head's nor one that the
    /// last test found, F6 if it is the head's and nothing was found.
    #[inline]
    pub fn read(&mut self, slot: u32, half: u32) -> Result<Seen, StepFault>
        ensures { IsTakenOrRefused self.old self.new (Read slot half) result }
    {
        let offset = self.read_offset(slot, half)?;
        laws::read();
        let which = half_of_number(half);
        let word = self.words.read(self.control().cons.forward(offset), which);
        self.consumer.reads(offset, which, word);
        Ok(Seen::Half(word))
    }

    /// An exclusive or of the control word, to take `count` commands.
    ///
    /// Errors: F8 if the count isn't 1 to 64; F6 if it is more than the last test found, F4 if a half isn't
    /// read.
    #[inline]
    pub fn advance(&mut self, count: u32) -> Result<Seen, StepFault>
        ensures { IsTakenOrRefused self.old self.new (Advance count) result }
    {
        if let Some(fault) = self.advance_fault(count) {
            return Err(fault);
        }
        laws::advance();
        laws::counts_law();
        laws::steps_law();
        let head = self.control().cons;
        self.words.advance(head, head.forward(count));
        self.tallies.takes_read(&self.consumer, count);
        self.consumer.advances(count);
        Ok(Seen::Word(self.control()))
    }

    /// A load of the sender's completion cell.
    ///
    /// Errors: F8 if there is no such sender.
    pub fn ask(&mut self, sender: u32) -> Result<Seen, StepFault>
        ensures { IsTakenOrRefused self.old self.new (Ask sender) result }
    {
        if sender as usize >= self.senders.len() {
            return Err(StepFault::NoSuchPlace);
        }
        laws::ask();
        Ok(Seen::Done(self.done(sender)))
    }

    /// A store of a closing sync's number into its sender's completion cell.
    ///
    /// Errors: F8 if there is no such sender; F7 if the number isn't the next one, or its sync isn't taken.
    pub fn acknowledge(&mut self, sender: u32, number: u32) -> Result<Seen, StepFault>
        ensures { IsTakenOrRefused self.old self.new (Acknowledge sender number) result }
    {
        if let Some(fault) = self.acknowledge_fault(sender, number) {
            return Err(fault);
        }
        laws::acknowledge();
        laws::steps_law();
        self.words.acknowledge(sender, number);
        Ok(Seen::Acknowledged)
    }

    /// Whether the slot is the head's.
    fn is_head(&self, slot: u32) -> bool
        ensures { AfterEachRun self.now (λ run. result ≡ is_head (ring_of self.now) run slot) }
    {
        self.control().cons.place() == slot
    }

    /// Returns why a test is refused, or `None` if it isn't.
    fn test_fault(&self, slot: u32, count: u32) -> Option<StepFault>
        ensures { AfterEachRun self.now (λ run. result ≡ fault_of (ring_of self.now) run (Test slot count)) }
    {
        if slot >= self.words.geometry().size() || !is_run_length(count) {
            return Some(StepFault::NoSuchPlace);
        }
        if self.is_head(slot) {
            None
        } else {
            Some(StepFault::NotTheHead)
        }
    }

    /// Returns the offset from the head of a slot, if a half of it may be read.
    fn read_offset(&self, slot: u32, half: u32) -> Result<u32, StepFault>
        ensures few { IfOk result (λ offset. offset < 64) }
        ensures within { IfOk result (λ offset. offset ≤ size self.now.words.geometry) }
        ensures accepted { IfOk result (λ offset. HasNoFault self.now (Read slot half) (λ run. tested_offset (ring_of self.now) run slot ≡ Some offset)) }
        ensures refused { IfErr result (λ fault. IsRefused self.now (Read slot half) fault) }
    {
        let geometry = self.words.geometry();
        if slot >= geometry.size() || half >= 2 {
            return Err(StepFault::NoSuchPlace);
        }
        if let Some(offset) = self.consumer.tested_offset(geometry, slot) {
            return Ok(offset);
        }
        if self.is_head(slot) {
            Err(StepFault::NotSeenReady)
        } else {
            Err(StepFault::NotTheHead)
        }
    }

    /// Returns why an advance is refused, or `None` if it isn't.
    fn advance_fault(&self, count: u32) -> Option<StepFault>
        ensures { AfterEachRun self.now (λ run. result ≡ fault_of (ring_of self.now) run (Advance count)) }
    {
        if !is_run_length(count) {
            return Some(StepFault::NoSuchPlace);
        }
        self.consumer.advance_fault(count)
    }

    /// Returns the number in a sender's completion cell.
    fn done(&self, sender: u32) -> u32
        requires { sender < self.now.words.senders }
        ensures { AfterEachRun self.now (λ run. result ≡ (world run).acknowledged sender) }
    {
        laws::world_law();
        laws::counts_law();
        self.words.acknowledged(sender) as u32
    }

    /// Returns why an acknowledgement is refused, or `None` if it isn't.
    fn acknowledge_fault(&self, sender: u32, number: u32) -> Option<StepFault>
        ensures { AfterEachRun self.now (λ run. result ≡ fault_of (ring_of self.now) run (Acknowledge sender number)) }
    {
        if sender as usize >= self.senders.len() {
            return Some(StepFault::NoSuchPlace);
        }
        laws::counts_law();
        laws::steps_law();
        if u64::from(number) != u64::from(self.done(sender)) + 1 {
            return Some(StepFault::NotNext);
        }
        if number <= self.tallies.of(sender) {
            None
        } else {
            Some(StepFault::NotNext)
        }
    }
}

/// Whether a step may name this many slots in a row: 1 to 64.
fn is_run_length(count: u32) -> bool
    ensures { result ≡ is_run_length count }
{
    1 <= count && count <= 64
}
