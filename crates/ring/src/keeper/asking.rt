//! Single steps of a sender, between two calls or during a reservation, and what the control word says.
ghost use Rattle.std.specs.Prelude.{◌≡◌, ◌<◌, None};
ghost use Rattle.qindex.specs.ControlWord.{IsControl};
ghost use Rattle.ring.specs.Runs.{Sender as SenderOf, Look, Close, Ask, world, control as control_of};
ghost use Rattle.ring.specs.Keepers.{with_step, KeepsAll};

use crate::keeper::Keeper;
use crate::ring::Ring;
use crate::table::Finds;
use qindex::Control;
use ringcore::{control_word, laws};

impl Keeper {
    /// A sender looks at the control word. Returns SMMU_CMDQ_PROD, SMMU_CMDQ_CONS and whether the ring is
    /// closed. The sender may have an open reservation, which stays open.
    pub fn look(&mut self, ring: &Ring, sender: u32) -> Control
        requires ring { self.old.ring ≡ ring.now }
        requires whole { self.old.lent ≡ None }
        requires known { sender < self.old.ring.made_with.senders }
        ensures keeper { self.new ≡ with_step (SenderOf sender) (Look result) self.old }
        ensures found { result ≡ control_of self.old.ring.made_with.geometry (world self.old.run) }
        ensures control { IsControl self.old.ring.made_with.geometry result }
        ensures all { KeepsAll self.old self.new }
    {
        let mut port = self.lend_to_sender(ring, sender);
        let found = port.look(ring);
        self.take_back(ring, port);
        self.run_stands();
        found
    }

    /// A sender closes the ring: from then on nothing more is reserved (own). The sender may have an open
    /// reservation, which stays open.
    pub fn close(&mut self, ring: &Ring, sender: u32)
        requires ring { self.old.ring ≡ ring.now }
        requires whole { self.old.lent ≡ None }
        requires known { sender < self.old.ring.made_with.senders }
        ensures keeper { self.new ≡ with_step (SenderOf sender) Close self.old }
        ensures all { KeepsAll self.old self.new }
    {
        let mut port = self.lend_to_sender(ring, sender);
        port.close(ring, sender);
        self.take_back(ring, port);
        self.run_stands();
    }

    /// A sender asks its completion cell up to which number all of its batches are done (own). It may have an
    /// open reservation, which stays open.
    pub fn done_up_to(&mut self, ring: &Ring, sender: u32) -> u32
        requires ring { self.old.ring ≡ ring.now }
        requires whole { self.old.lent ≡ None }
        requires known { sender < self.old.ring.made_with.senders }
        ensures keeper { self.new ≡ with_step (SenderOf sender) (Ask result) self.old }
        ensures found { result ≡ (world self.old.run).acknowledged sender }
        ensures all { KeepsAll self.old self.new }
    {
        let mut port = self.lend_to_sender(ring, sender);
        let found = port.ask(ring, sender);
        self.take_back(ring, port);
        self.run_stands();
        found
    }

    /// Returns what the control word says: SMMU_CMDQ_PROD, SMMU_CMDQ_CONS and whether the ring is closed.
    /// Nobody takes a step.
    pub fn control(&mut self, ring: &Ring) -> Control
        requires ring { self.old.ring ≡ ring.now }
        requires whole { self.old.lent ≡ None }
        ensures keeper { self.new ≡ self.old }
        ensures says { result ≡ control_of self.old.ring.made_with.geometry (world self.old.run) }
        ensures control { IsControl self.old.ring.made_with.geometry result }
    {
        laws::look();
        let words = &ring.table.shared;
        let word = words.load::<Finds>(&mut self.seat, control_word());
        Control::unpack(ring.geometry(), word).unwrap()
    }
}
