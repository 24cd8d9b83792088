//! A forwarder whose registers somebody else reads.
ghost use Rattle.std.specs.Prelude.{◌≡◌, ℕ, map, OnOk, OnErr, IfOk, IfErr};
ghost use Rattle.ringcore.specs.declared.world.event.Who.TheVariants.{Consumer as ConsumerOf};
ghost use Rattle.ringcore.specs.world.World.{taken_as};
ghost use Rattle.ring.specs.table.Histories.{Grew};
ghost use Rattle.ring.specs.consumer.Deferring.{settled_raws};
ghost use Rattle.hardware_queue.specs.declared.state.QueueState.TheVariants.{Broken, Running};
ghost use Rattle.hardware_queue.specs.Owners.{IsBroken, state_after};
ghost use Rattle.hardware_queue.specs.Flights.{HasConsumedAll, IsInOrder};
ghost use Rattle.hardware_queue.specs.Steps.{HasSettledAt};
ghost use Rattle.hardware_queue.specs.Forwarders.{IsRefused};
ghost use Rattle.hardware_queue.specs.Supplying.{HasLooked, HasRemediedWith, HasRestartedWith};

use crate::forwarded::Acknowledgement;
use crate::forwarder::Forwarder;
use crate::queue_progress::Progress;
use crate::register_words::RegisterWords;
use crate::remedy::{Remedy, RemedyFault};
use crate::restart::Restart;
use crate::state::QueueState;
use crate::supplied_queue::SuppliedQueue;
use ring::Ring;

impl<Q: SuppliedQueue> Forwarder<Q> {
    /// Does what `poll` does, by the words that the caller read of the registers. It is `Broken` by words that no working
    /// queue can have.
    pub fn poll_words(&mut self, ring: &Ring, words: RegisterWords) -> Progress
        requires { self.old.consumer.consumer.ring ≡ ring.now }
        ensures looked { ¬ IsBroken self.old.owner.state
            → HasLooked words (Q.queue self.old.owner.queue) (Q.queue self.new.owner.queue) result }
        ensures state { ¬ IsBroken self.old.owner.state
            → self.new.owner.state ≡ state_after result }
        ensures broken { (word : ℕ) → self.old.owner.state ≡ Broken word
            → (result ≡ Progress.Broken word) × (self.new ≡ self.old) }
        ensures settled { HasSettledAt result (Q.queue self.new.owner.queue)
            self.old.consumer self.new.consumer }
        ensures consumed { HasConsumedAll (Q.queue self.new.owner.queue)
            (map taken_as (settled_raws self.new.consumer)) }
        ensures order { IsInOrder (Q.queue self.new.owner.queue)
            self.new.consumer.consumer.history }
        ensures lost { (Q.queue self.new.owner.queue).lost ≡ (Q.queue self.old.owner.queue).lost }
        ensures repeated { (Q.queue self.new.owner.queue).repeated
            ≡ (Q.queue self.old.owner.queue).repeated }
        ensures history { Grew ConsumerOf
            self.old.consumer.consumer.trail self.new.consumer.consumer.trail
            self.old.consumer.consumer.history self.new.consumer.consumer.history }
        ensures ring { self.new.consumer.consumer.ring ≡ self.old.consumer.consumer.ring }
    {
        if let QueueState::Broken(_) = self.owner.state() {
            return self.poll(ring);
        }
        if !self.owner.supply(words) {
            return self.poll(ring);
        }
        let found = self.poll(ring);
        self.owner.answers_are_supplied();
        found
    }

    /// Does what `acknowledge` does, by SMMU_GERRORN as the caller read it, and returns what he has to write: the slot, if
    /// one is written over, and then SMMU_GERRORN. Of CMDQ_ERR in `gerrorn` nothing is believed.
    ///
    /// Errors: those of `acknowledge`, each changing nothing.
    pub fn acknowledge_words(
        &mut self,
        remedy: Remedy,
        gerrorn: u32,
    ) -> Result<Acknowledgement, RemedyFault>
        ensures done { IfOk result (HasRemediedWith remedy gerrorn self.old.owner.state
            (Q.queue self.old.owner.queue) (Q.queue self.new.owner.queue)) }
        ensures running { OnOk result (self.new.owner.state ≡ Running) }
        ensures refused { IfErr result
            (IsRefused remedy self.old.owner.state (Q.queue self.old.owner.queue)) }
        ensures kept { OnErr result (self.new ≡ self.old) }
        ensures consumer { self.new.consumer ≡ self.old.consumer }
    {
        let Some(stopped) = self.stopped() else {
            return Err(RemedyFault::NotStopped);
        };
        if let Some(fault) = stopped.refusal(remedy) {
            return Err(fault);
        }
        let slot = remedy.overwritten(self.owner.next_slot());
        self.owner.supply_gerrorn(gerrorn);
        let Ok(stopped) = self.acknowledge(remedy) else {
            unreachable!();
        };
        self.owner.answers_are_supplied();
        let gerrorn = self.owner.gerrorn_of(gerrorn);
        Ok(Acknowledgement {
            stopped,
            slot,
            gerrorn,
        })
    }
    /// Does what `restart` does, by SMMU_GERRORN as the caller read it once the queue was disabled and no error was active.
    /// Returns the values for PROD and CONS that he writes before he enables it.
    pub fn restart_words(&mut self, gerrorn: u32) -> Restart
        ensures restarted { HasRestartedWith gerrorn
            (Q.queue self.old.owner.queue) (Q.queue self.new.owner.queue) result }
        ensures running { self.new.owner.state ≡ Running }
        ensures consumer { self.new.consumer ≡ self.old.consumer }
    {
        self.owner.restart_with(gerrorn)
    }
}
