//! The forwarder: the consumer of a ring with the hardware that carries its commands out.
ghost use Rattle.std.specs.Prelude.{◌≡◌, ◌<◌, ℕ, [], length, map, OnOk, OnErr, IfOk, IfErr, IfSome, IfNone};
ghost use Rattle.ringcore.specs.declared.world.event.Who.TheVariants.{Consumer as ConsumerOf, Sender as SenderOf};
ghost use Rattle.ringcore.specs.world.World.{taken_as};
ghost use Rattle.ring.specs.table.Rule.{WentOn};
ghost use Rattle.ring.specs.table.Histories.{IsHistory, Grew};
ghost use Rattle.ring.specs.consumer.Completing.{taken_of};
ghost use Rattle.ring.specs.consumer.Deferring.{deferring, settled_raws, unsettled_raws};
ghost use Rattle.ring.specs.Finishing.{AreAll};
ghost use Rattle.hardware_queue.specs.declared.state.QueueState.TheVariants.{Running, Broken};
ghost use Rattle.hardware_queue.specs.Owners.{HasPolled, IsBroken, IsStoppedState, WasRestarted, state_after};
ghost use Rattle.hardware_queue.specs.Fates.{IsOutcomeOf, IsWhole};
ghost use Rattle.batch_outcomes.specs.declared.batch_outcome.BatchOutcome.TheVariants.{Complete};
ghost use Rattle.hardware_queue.specs.Flights.{HasConsumedAll, IsInOrder};
ghost use Rattle.hardware_queue.specs.Steps.{HasForwarded, HasSettledAt};
ghost use Rattle.hardware_queue.specs.Forwarders.{IsStoppedAt, IsRefused, HasRemedied, WasToldAllTruly, IsForwarderEnd, count_lost};

mod supplied;

use crate::command_queue::CommandQueue;
use crate::fates::Fates;
use crate::flight::Flight;
use crate::forwarded::{Forwarded, Stopped};
use crate::forwarding::forward_with;
use crate::hardware_form::hardware_form;
use crate::owner::Owner;
use crate::queue_progress::Progress;
use crate::remedy::{Remedy, RemedyFault};
use crate::settling::poll_with;
use crate::state::QueueState;
use batch_outcomes::BatchOutcome;
use ring::{Consumer, DeferringConsumer, Receipt, Ring, Sender, Summary};
use ringcore::{counts_law, laws};
use std::alloc::{AllocError, Global};
use std::marker::Model;

/// Takes a ring's commands, has hardware carry them out, and settles them once it has consumed them.
#[derive(Drop)]
pub struct Forwarder<Q: CommandQueue> {
    consumer: DeferringConsumer<Owner<Q>>,
    owner: Owner<Q>,
    /// What was taken and isn't settled.
    flight: Flight,
    /// What became of what is settled.
    fates: Fates,
    /// How many commands were written over.
    lost: u64,
}

impl<Q: CommandQueue> Model for Forwarder<Q> {
    ghost use Rattle.hardware_queue.specs.Steps.{ForwarderValue};
    ghost use Rattle.hardware_queue.specs.Kept.{IsForwarder};
    ghost use Rattle.hardware_queue.specs.Fates.{IsKnown};
    ghost use Rattle.ring.specs.consumer.Deferring.{settled_raws};

    ghost Value = { ForwarderValue Q };

    ghost view = { λ f. record { consumer = f.consumer; owner = f.owner } };

    ghost invariant = { λ f. IsForwarder (Q.queue f.owner.queue) f.owner.state f.consumer f.flight f.lost
        × IsKnown (Q.queue f.owner.queue).lost (settled_raws f.consumer) f.consumer.consumer.ring.made_with.senders f.fates };
}

impl<Q: CommandQueue> Forwarder<Q> {
    /// Creates a forwarder from a ring's consumer that has taken nothing and an owner that has shown nothing, for a ring of
    /// `senders` senders. It takes memory for as many commands as the hardware's queue has slots, and no call takes more.
    pub fn new(
        alloc: Global,
        consumer: Consumer<Owner<Q>>,
        owner: Owner<Q>,
        senders: u32,
    ) -> Result<Forwarder<Q>, AllocError>
    where
        Q: Drop,
        requires senders { senders ≡ consumer.ring.made_with.senders }
        requires taken { taken_of consumer.trail ≡ [] }
        requires shown { (Q.queue owner.queue).shown ≡ [] }
        requires consumed { (Q.queue owner.queue).consumed ≡ 0 }
        requires lost { (Q.queue owner.queue).lost ≡ [] }
        ensures { IfOk result (λ f. f ≡ record { consumer = deferring consumer; owner = owner }) }
    {
        let flight = Flight::new(alloc, owner.slots())?;
        let fates = Fates::new(alloc, senders)?;
        Ok(Forwarder {
            consumer: DeferringConsumer::new(consumer),
            owner,
            flight,
            fates,
            lost: 0,
        })
    }

    /// Takes as many commands as fit of those that are ready, 64 at most, and shows the hardware what it gets for them.
    /// Their slots in the ring are free at once, and none of their CMD_SYNCs is acknowledged. An
    /// illegal command is taken alone, and the hardware isn't shown it.
    pub fn forward(&mut self, ring: &Ring) -> Forwarded
        requires { self.old.consumer.consumer.ring ≡ ring.now }
        ensures forwarded { HasForwarded Q.queue self.old self.new result }
        ensures broken { (word : ℕ) → self.old.owner.state ≡ Broken word
            → result ≡ Forwarded.Broken word }
        ensures state { self.new.owner.state ≡ self.old.owner.state }
        ensures settled { settled_raws self.new.consumer ≡ settled_raws self.old.consumer }
        ensures consumed { HasConsumedAll (Q.queue self.new.owner.queue)
            (map taken_as (settled_raws self.new.consumer)) }
        ensures order { IsInOrder (Q.queue self.new.owner.queue)
            self.new.consumer.consumer.history }
        ensures lost { (Q.queue self.new.owner.queue).lost ≡ (Q.queue self.old.owner.queue).lost }
        ensures repeated { (Q.queue self.new.owner.queue).repeated
            ≡ (Q.queue self.old.owner.queue).repeated }
        ensures history { Grew ConsumerOf
            self.old.consumer.consumer.trail self.new.consumer.consumer.trail
            self.old.consumer.consumer.history self.new.consumer.consumer.history }
        ensures ring { self.new.consumer.consumer.ring ≡ self.old.consumer.consumer.ring }
    {
        laws::world_law();
        laws::consumer_trail();
        let answer = forward_with(&mut self.consumer, &mut self.owner, &mut self.flight, ring);
        self.consumer.trail_stands_in_a_run();
        answer
    }

    /// Looks at the registers once, and settles what the hardware has consumed, with each illegal command ahead of the
    /// next that it was shown: then the CMD_SYNCs among it are acknowledged. A command that was written over is settled
    /// with the others, once the CMD_SYNC in its place is consumed, and had no effect.
    pub fn poll(&mut self, ring: &Ring) -> Progress
        requires { self.old.consumer.consumer.ring ≡ ring.now }
        ensures polled { ¬ IsBroken self.old.owner.state
            → HasPolled (Q.queue self.old.owner.queue) (Q.queue self.new.owner.queue) result }
        ensures state { ¬ IsBroken self.old.owner.state
            → self.new.owner.state ≡ state_after result }
        ensures broken { (word : ℕ) → self.old.owner.state ≡ Broken word
            → (result ≡ Progress.Broken word) × (self.new ≡ self.old) }
        ensures settled { HasSettledAt result (Q.queue self.new.owner.queue)
            self.old.consumer self.new.consumer }
        ensures consumed { HasConsumedAll (Q.queue self.new.owner.queue)
            (map taken_as (settled_raws self.new.consumer)) }
        ensures order { IsInOrder (Q.queue self.new.owner.queue)
            self.new.consumer.consumer.history }
        ensures lost { (Q.queue self.new.owner.queue).lost ≡ (Q.queue self.old.owner.queue).lost }
        ensures repeated { (Q.queue self.new.owner.queue).repeated
            ≡ (Q.queue self.old.owner.queue).repeated }
        ensures history { Grew ConsumerOf
            self.old.consumer.consumer.trail self.new.consumer.consumer.trail
            self.old.consumer.consumer.history self.new.consumer.consumer.history }
        ensures ring { self.new.consumer.consumer.ring ≡ self.old.consumer.consumer.ring }
    {
        laws::world_law();
        laws::consumer_trail();
        let found = poll_with(
            &mut self.consumer,
            &mut self.owner,
            &mut self.flight,
            &mut self.fates,
            ring,
        );
        self.consumer.trail_stands_in_a_run();
        found
    }

    /// Returns how many commands were taken and aren't settled.
    pub fn in_flight(&self) -> u32
        ensures { result ≡ length (unsettled_raws self.now.consumer) }
    {
        self.flight.len()
    }

    /// Returns at which command the last look found the hardware stopped, and why, until that is acknowledged.
    pub fn stopped(&self) -> Option<Stopped>
        ensures some { IfSome result (IsStoppedAt (Q.queue self.now.owner.queue)
            self.now.owner.state) }
        ensures none { IfNone result (¬ IsStoppedState self.now.owner.state) }
    {
        let QueueState::Stopped(error) = self.owner.state() else {
            return None;
        };
        self.owner.stopped_is_in_flight();
        let first = self.flight.front().unwrap();
        let command = hardware_form(first.raw);
        Some(Stopped { command, error })
    }

    /// Acknowledges the error with which the last look found the hardware stopped, and returns at which command. It reads
    /// that again, or, if it calls it illegal, a CMD_SYNC in its place: then the command is lost. It counts as applied
    /// in the ring all the same, once the CMD_SYNC in its place is consumed.
    ///
    /// Errors, in this order, each changing nothing: `NotStopped`; `NotIllegal`; `IsSync`.
    pub fn acknowledge(&mut self, remedy: Remedy) -> Result<Stopped, RemedyFault>
        ensures done { IfOk result (HasRemedied remedy self.old.owner.state
            (Q.queue self.old.owner.queue) (Q.queue self.new.owner.queue)) }
        ensures running { OnOk result (self.new.owner.state ≡ Running) }
        ensures refused { IfErr result (IsRefused remedy self.old.owner.state
            (Q.queue self.old.owner.queue)) }
        ensures kept { OnErr result (self.new ≡ self.old) }
        ensures consumer { self.new.consumer ≡ self.old.consumer }
    {
        let Some(stopped) = self.stopped() else {
            return Err(RemedyFault::NotStopped);
        };
        if let Some(fault) = stopped.refusal(remedy) {
            return Err(fault);
        }
        self.owner.acknowledge(remedy)?;
        self.lost = self.lost.saturating_add(remedy.lost());
        self.fates.remedy(remedy);
        Ok(stopped)
    }

    /// Has the hardware begin again, whatever the last look found: the queue is disabled and enabled again, and reads again
    /// what isn't known to be consumed, in order. Nothing is taken or settled by it, and what was written over stays so.
    pub fn restart(&mut self)
        ensures restarted { WasRestarted
            (Q.queue self.old.owner.queue) (Q.queue self.new.owner.queue) }
        ensures running { self.new.owner.state ≡ Running }
        ensures consumer { self.new.consumer ≡ self.old.consumer }
    {
        self.owner.restart();
    }

    /// Returns how often `acknowledge` wrote over a command at the hardware; `2^64 - 1` if more.
    pub fn lost(&self) -> u64
        ensures { result ≡ count_lost (Q.queue self.now.owner.queue) }
    {
        self.lost
    }

    /// Returns how many senders its ring has.
    pub fn senders(&self) -> usize
        ensures { result ≡ self.now.consumer.consumer.ring.made_with.senders }
    {
        self.fates.senders()
    }

    /// Returns what became of the batch that a receipt names, with those without a CMD_SYNC that were reserved between it
    /// and the CMD_SYNC ahead of it: a command is lost if it is illegal, or was written over. Whether an endpoint answered
    /// a CMD_ATC_INV isn't asked.
    pub fn outcome(&self, receipt: &Receipt) -> BatchOutcome
        requires { receipt.now.sender < self.now.consumer.consumer.ring.made_with.senders }
        ensures outcome { IsOutcomeOf (Q.queue self.now.owner.queue).lost
            (settled_raws self.now.consumer) receipt.now.sender receipt.now.number result }
        ensures whole { result ≡ Complete → IsWhole (Q.queue self.now.owner.queue).lost
            (settled_raws self.now.consumer) receipt.now.sender receipt.now.number }
    {
        self.outcome_of(receipt.sender(), receipt.number())
    }

    /// Returns what `outcome` does, for the batch of a sender with this number, which counts from 1.
    pub fn outcome_of(&self, sender: u32, number: u32) -> BatchOutcome
        requires { sender < self.now.consumer.consumer.ring.made_with.senders }
        ensures outcome { IsOutcomeOf (Q.queue self.now.owner.queue).lost
            (settled_raws self.now.consumer) sender number result }
        ensures whole { result ≡ Complete → IsWhole (Q.queue self.now.owner.queue).lost
            (settled_raws self.now.consumer) sender number }
    {
        counts_law();
        self.fates.outcome(sender, number)
    }

    /// A witness, while the ring runs, that a sender was told truly: whatever number it was told, all that was reserved
    /// before that CMD_SYNC is carried out: it has its effect, unless it was written over or is a CMD_ATC_INV that may be
    /// unanswered. From then on both know the run as it is at this moment, which has the steps of both. Otherwise both
    /// stay as they are.
    pub fn told(&mut self, ring: &Ring, sender: &mut Sender)
        requires ring { self.old.consumer.consumer.ring ≡ ring.now }
        requires sender { sender.old.ring ≡ ring.now }
        ensures told { WasToldAllTruly (Q.has_effect self.new.owner.queue)
            (Q.queue self.new.owner.queue) self.new.consumer.consumer.history sender.old.number
            sender.old.trail }
        ensures order { IsInOrder (Q.queue self.new.owner.queue)
            self.new.consumer.consumer.history }
        ensures owner { self.new.owner ≡ self.old.owner }
        ensures consumer { record self.new.consumer.consumer { history = [] }
            ≡ record self.old.consumer.consumer { history = [] } }
        ensures raws { self.new.consumer.raws ≡ self.old.consumer.raws }
        ensures settled { self.new.consumer.settled ≡ self.old.consumer.settled }
        ensures sender { record sender.new { history = [] } ≡ record sender.old { history = [] } }
        ensures one { sender.new.history ≡ self.new.consumer.consumer.history }
        ensures of_consumer { IsHistory self.old.consumer.consumer.ring.made_with ConsumerOf
            self.old.consumer.consumer.trail self.new.consumer.consumer.history }
        ensures of_sender { IsHistory sender.old.ring.made_with (SenderOf sender.old.number)
            sender.old.trail self.new.consumer.consumer.history }
        ensures known_to_consumer { WentOn ConsumerOf self.old.consumer.consumer.history
            self.new.consumer.consumer.history }
        ensures known_to_sender { WentOn (SenderOf sender.old.number) sender.old.history
            self.new.consumer.consumer.history }
    {
        laws::world_law();
        laws::consumer_trail();
        laws::counts_law();
        self.owner.syncs_complete();
        self.consumer.meet(ring, sender);
    }

    /// Joins the forwarder and all senders of its ring, and returns the hardware's queue. `senders` has them in the order of
    /// their numbers. One run has all their steps, and whatever a sender was told in it was true.
    pub fn finish(self, ring: Ring, senders: Vec<Sender>) -> (Summary, Q)
        requires senders { AreAll ring senders.items }
        requires ring { self.consumer.consumer.ring ≡ ring }
        ensures end { IsForwarderEnd Q.queue Q.has_effect ring senders.items self result.0 }
        ensures queue { result.1 ≡ self.owner.queue }
    {
        laws::consumer_trail();
        laws::counts_law();
        let Forwarder {
            consumer,
            owner,
            flight: _,
            fates: _,
            lost: _,
        } = self;
        owner.syncs_complete();
        (consumer.finish(ring, senders), owner.into_queue())
    }

    /// Returns the hardware's queue.
    pub fn queue(&self) -> &Q
        ensures { result.now ≡ self.now.owner.queue }
    {
        self.owner.queue()
    }
}
