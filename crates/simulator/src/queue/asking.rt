//! Single steps of a sender, and what the control word says.
ghost use Rattle.std.specs.Prelude.{◌≡◌, ◌<◌, ◌∷◌};
ghost use Rattle.qindex.specs.ControlWord.{IsControl};
ghost use Rattle.ring.specs.Runs.{Sender, Close, Ask, world, control};
ghost use Rattle.simulator.specs.queue.{looked_by, ring_in, LeavesConsumer};

use crate::queue::Queue;
use qindex::Control;

impl Queue {
    /// Returns what the control word says. Nobody takes a step.
    pub(crate) fn control(&mut self) -> Control
        ensures says { result ≡ control (ring_in self.old).geometry (world self.old.keeper.run) }
        ensures geometry { IsControl (ring_in self.old).geometry result }
        ensures same { self.new ≡ self.old }
    {
        self.keeper.control(&self.ring)
    }

    /// Looks as a sender, which may have an open reservation.
    pub(crate) fn look(&mut self, sender: u32) -> Control
        requires { sender < (ring_in self.old).senders }
        ensures run { self.new.keeper.run
            ≡ looked_by (Sender sender) (ring_in self.old).geometry self.old.keeper.run }
        ensures found { result ≡ control (ring_in self.old).geometry (world self.old.keeper.run) }
        ensures geometry { IsControl (ring_in self.old).geometry result }
        ensures consumer { LeavesConsumer self.old.keeper self.new.keeper }
    {
        self.keeper.look(&self.ring, sender)
    }

    /// Closes as a sender, which may have an open reservation.
    pub(crate) fn close(&mut self, sender: u32)
        requires { sender < (ring_in self.old).senders }
        ensures run { self.new.keeper.run ≡ (Sender sender, Close) ∷ self.old.keeper.run }
        ensures consumer { LeavesConsumer self.old.keeper self.new.keeper }
    {
        self.keeper.close(&self.ring, sender);
    }

    /// Loads, as a sender, the number in its completion cell. It may have an open reservation.
    pub(crate) fn ask(&mut self, sender: u32) -> u32
        requires { sender < (ring_in self.old).senders }
        ensures run { self.new.keeper.run ≡ (Sender sender, Ask result) ∷ self.old.keeper.run }
        ensures found { result ≡ (world self.old.keeper.run).acknowledged sender }
        ensures consumer { LeavesConsumer self.old.keeper self.new.keeper }
    {
        self.keeper.done_up_to(&self.ring, sender)
    }
}
