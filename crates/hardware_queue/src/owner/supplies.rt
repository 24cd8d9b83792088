//! What the owner of a queue does whose registers somebody else reads.
ghost use Rattle.std.specs.Prelude.{◌≡◌, ◌/◌, false, IsTrue};
ghost use Rattle.qindex.specs.Positions.{place};
ghost use Rattle.hardware_queue.specs.declared.state.QueueState.TheVariants.{Broken, Running};
ghost use Rattle.hardware_queue.specs.Queues.{command_queue_error};
ghost use Rattle.hardware_queue.specs.Supplying.{CanHave, supplied_with, supplied_gerrorn, AreSupplied, HasRestartedWith};

use crate::command_queue::CommandQueue;
use crate::owner::Owner;
use crate::owner::registers::with_error;
use crate::register_words::RegisterWords;
use crate::restart::Restart;
use crate::state::QueueState;
use crate::supplied_queue::SuppliedQueue;

impl<Q: CommandQueue> Owner<Q> {
    /// Returns the slot of the command that comes next.
    pub fn next_slot(&self) -> u32
        ensures { result ≡ place (Q.queue self.now.queue).geometry
            (Q.queue self.now.queue).consumed }
    {
        self.cons.place()
    }

    /// Returns SMMU_GERRORN as it was read, with CMDQ_ERR as it was read or written last.
    pub fn gerrorn_of(&self, word: u32) -> u32
        ensures bit { command_queue_error result
            ≡ command_queue_error (Q.queue self.now.queue).gerrorn }
        ensures others { result / 2 ≡ word / 2 }
    {
        with_error(word, self.acknowledged)
    }
}

impl<Q: SuppliedQueue> Owner<Q> {
    /// Gives the queue the words that its next look finds, and returns whether a working queue can have them. Otherwise
    /// it is broken from then on.
    pub fn supply(&mut self, words: RegisterWords) -> bool
        ensures supplied { IsTrue result
            → Q.queue self.new.queue ≡ supplied_with words (Q.queue self.old.queue) }
        ensures can { IsTrue result → CanHave words (Q.queue self.old.queue) }
        ensures state { IsTrue result → self.new.state ≡ self.old.state }
        ensures cannot { result ≡ false → ¬ CanHave words (Q.queue self.old.queue) }
        ensures broken { result ≡ false → self.new ≡ record self.old { state = Broken words.cons } }
    {
        if !self.queue.can_have(words) {
            self.state = QueueState::Broken(words.cons);
            return false;
        }
        self.queue.supply(words);
        true
    }

    /// Gives the queue SMMU_GERRORN, which an acknowledgement reads.
    pub fn supply_gerrorn(&mut self, word: u32)
        ensures supplied { Q.queue self.new.queue ≡ supplied_gerrorn word (Q.queue self.old.queue) }
        ensures state { self.new.state ≡ self.old.state }
    {
        self.queue.supply_gerrorn(word);
    }

    /// Restarts the queue, by SMMU_GERRORN as it was read then.
    pub fn restart_with(&mut self, gerrorn: u32) -> Restart
        ensures restarted { HasRestartedWith gerrorn
            (Q.queue self.old.queue) (Q.queue self.new.queue) result }
        ensures running { self.new.state ≡ Running }
    {
        let (prod, cons) = (self.prod.get(), self.cons.get());
        self.queue.restart_with(prod, cons, gerrorn);
        self.acknowledged = gerrorn % 2 == 1;
        self.state = QueueState::Running;
        Restart { prod, cons }
    }

    /// A witness that whatever was read was of the words that it got. It does nothing.
    pub fn answers_are_supplied(&self)
        ensures { AreSupplied (Q.queue self.now.queue) }
    {
        self.queue.answers_are_supplied();
    }
}
