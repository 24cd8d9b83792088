//! A command queue whose registers somebody else reads.
ghost use Rattle.std.specs.Prelude.{◌≡◌, ◌↔◌, IsTrue};

use crate::command_queue::CommandQueue;
use crate::register_words::RegisterWords;

/// A queue that answers each read of a register with words that it got before: whoever holds it reads the registers.
pub trait SuppliedQueue: CommandQueue {
    ghost use Rattle.std.specs.Prelude.{◌≡◌, ◌↔◌, IsTrue};
    ghost use Rattle.hardware_queue.specs.Queues.{MayRestart, HasRestarted};
    ghost use Rattle.hardware_queue.specs.Supplying.{CanHave, supplied_with, supplied_gerrorn, again_after, AreSupplied};

    /// Whether the registers of a working queue can have these words.
    fn can_have(&self, words: RegisterWords) -> bool
        ensures { IsTrue result ↔ CanHave words (Self.queue self.now) };

    /// Gets the words with which it answers from now on.
    fn supply(&mut self, words: RegisterWords)
        requires { CanHave words (Self.queue self.old) }
        ensures { Self.queue self.new ≡ supplied_with words (Self.queue self.old) };

    /// Gets SMMU_GERRORN, with which it answers from now on. Of CMDQ_ERR it knows better, since nobody else writes it.
    fn supply_gerrorn(&mut self, word: u32)
        ensures { Self.queue self.new ≡ supplied_gerrorn word (Self.queue self.old) };

    /// Does what `restart` does, by SMMU_GERRORN as it was read then.
    fn restart_with(&mut self, prod: u32, cons: u32, gerrorn: u32)
        requires { MayRestart prod cons (Self.queue self.old) }
        ensures restarted { HasRestarted (Self.queue self.old) (Self.queue self.new) gerrorn }
        ensures again { (Self.queue self.new).supplied.again ≡ again_after (Self.queue self.old) };

    /// A witness that it answered with the words that it got last, whatever was read since. It does nothing.
    fn answers_are_supplied(&self)
        ensures { AreSupplied (Self.queue self.now) };
}
