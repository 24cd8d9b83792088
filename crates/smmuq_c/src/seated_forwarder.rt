//! A forwarder with its share of its ring.
ghost use Rattle.std.specs.Prelude.{◌≡◌, ◌≤◌, length};
ghost use Rattle.std.specs.Arc.{arc_value};
ghost use Rattle.smmuq_c.specs.Forwarding.{HasForwardedFor, TellsAnswer, HasPolledFor, HasAcknowledgedFor, polled_status, consumed_by, forwarded_status, acknowledgement_words, fault_status};
ghost use Rattle.smmuq_c.specs.Messages.{HasPolledMessage};
ghost use Rattle.smmuq_c.specs.Outcomes.{HasToldOutcome};
ghost use Rattle.smmuq_c.specs.Restarting.{HasRestartedFor};
ghost use Rattle.smmuq_c.specs.Kept.{IsKept};

use crate::forwarder_calls::{AcknowledgementWords, PlacementWords};
use crate::outcome_calls::OutcomeWords;
use crate::restarting::RestartWords;
use crate::status::Status;
use cmdcodec::Raw;
use engine::AckFault;
use hardware_queue::{
    Acknowledgement, Forwarded, Forwarder, Progress, RegisterWords, Remedy, RemedyFault,
};
use ring::Ring;
use shadow_queue::{Placement, ShadowQueue, forward, poll_msi};
use std::marker::Model;
use std::sync::Arc;

/// How many commands a run has at most.
const MOST: usize = 64;

/// A forwarder with its ring.
#[derive(Drop)]
pub(crate) struct SeatedForwarder {
    ring: Arc<Ring>,
    forwarder: Forwarder<ShadowQueue>,
}

impl Model for SeatedForwarder {
    ghost use Rattle.std.specs.Prelude.{◌≡◌};
    ghost use Rattle.std.specs.Arc.{arc_value};
    ghost use Rattle.smmuq_c.specs.HeldForwarders.{HeldForwarder};

    ghost Value = { HeldForwarder };

    ghost view = { λ s. s.forwarder };

    ghost invariant = { λ s. s.forwarder.consumer.consumer.ring ≡ arc_value s.ring };
}

impl SeatedForwarder {
    pub(crate) fn new(ring: Arc<Ring>, forwarder: Forwarder<ShadowQueue>) -> SeatedForwarder
        requires { forwarder.consumer.consumer.ring ≡ arc_value ring }
        ensures { result ≡ forwarder }
    {
        SeatedForwarder { ring, forwarder }
    }

    /// Forwards a run, and tells what is to be written.
    pub(crate) fn forward(&mut self, buffer: &mut [Raw], told: &mut PlacementWords) -> Status
        ensures called { HasForwardedFor buffer.old buffer.new told.new self.old self.new result }
        ensures told { IsKept result told.old told.new }
    {
        if buffer.len() < MOST {
            return Status::ShortBuffer;
        }
        let (answer, placement) = forward(&mut self.forwarder, &self.ring, buffer);
        tell(answer, placement, buffer, told);
        status_of(answer)
    }

    /// Polls by the words that the caller read.
    pub(crate) fn poll(&mut self, words: RegisterWords, consumed: &mut u32) -> Status
        ensures { HasPolledFor words consumed.old consumed.new self.old self.new result }
    {
        let progress = self.forwarder.poll_words(&self.ring, words);
        *consumed = told_consumed(progress, *consumed);
        polled(progress)
    }

    /// Polls by the data of an MSI.
    pub(crate) fn poll_msi(&mut self, message: u32, consumed: &mut u32) -> Status
        ensures { HasPolledMessage message consumed.new self.old self.new result }
    {
        *consumed = poll_msi(&mut self.forwarder, &self.ring, message).unwrap_or(0);
        Status::Done
    }

    /// Acknowledges an error, by SMMU_GERRORN as the caller read it.
    pub(crate) fn acknowledge(
        &mut self,
        remedy: Remedy,
        gerrorn: u32,
        told: &mut AcknowledgementWords,
    ) -> Status
        ensures called { HasAcknowledgedFor gerrorn remedy told.new self.old self.new result }
        ensures told { IsKept result told.old told.new }
    {
        let acknowledgement = match self.forwarder.acknowledge_words(remedy, gerrorn) {
            Ok(acknowledgement) => acknowledgement,
            Err(fault) => return refused(fault),
        };
        *told = words_of(acknowledgement);
        Status::Done
    }

    /// Begins the hardware's queue again, and tells with which indexes.
    pub(crate) fn restart(&mut self, gerrorn: u32, told: &mut RestartWords) -> Status
        ensures { HasRestartedFor gerrorn told.new self.old self.new result }
    {
        let restart = self.forwarder.restart_words(gerrorn);
        *told = RestartWords {
            prod: restart.prod,
            cons: restart.cons,
            message: self.forwarder.queue().first_message(),
        };
        Status::Done
    }

    /// Tells what became of a sender's batch.
    pub(crate) fn outcome(&self, sender: u32, number: u32, told: &mut OutcomeWords) -> Status
        ensures called { HasToldOutcome sender number told.new self.now self.now result }
        ensures told { IsKept result told.old told.new }
    {
        if sender as usize >= self.forwarder.senders() {
            return Status::BadField;
        }
        *told = OutcomeWords::from(self.forwarder.outcome_of(sender, number));
        Status::Done
    }
}

/// Tells where the commands go that the buffer has, or the illegal command that was taken.
fn tell(answer: Forwarded, placement: Placement, buffer: &mut [Raw], told: &mut PlacementWords)
    requires { 1 ≤ length buffer.old }
    ensures { TellsAnswer answer placement buffer.old buffer.new told.old told.new }
{
    match answer {
        Forwarded::Shown(_) => {
            *told = PlacementWords {
                slot: placement.slot,
                count: placement.count,
                prod: placement.prod,
                message: placement.message,
            };
        }
        Forwarded::Replaced(raw) => buffer[0] = raw,
        _ => {}
    }
}

fn status_of(answer: Forwarded) -> Status
    ensures { result ≡ forwarded_status answer }
{
    match answer {
        Forwarded::Empty => Status::RingEmpty,
        Forwarded::Drained => Status::RingDrained,
        Forwarded::Unwritten => Status::RingUnwritten,
        Forwarded::Full => Status::QueueFull,
        Forwarded::Shown(_) => Status::Done,
        Forwarded::Replaced(_) => Status::Replaced,
        Forwarded::Broken(_) => Status::QueueBroken,
    }
}

fn polled(progress: Progress) -> Status
    ensures { result ≡ polled_status progress }
{
    match progress {
        Progress::Consumed(_) => Status::Done,
        Progress::Stopped { .. } => Status::QueueStopped,
        Progress::Broken(_) => Status::QueueBroken,
    }
}

/// Returns how many more were consumed, and what was there where that isn't known.
fn told_consumed(progress: Progress, before: u32) -> u32
    ensures { result ≡ consumed_by progress before }
{
    match progress {
        Progress::Consumed(consumed) | Progress::Stopped { consumed, .. } => consumed,
        Progress::Broken(_) => before,
    }
}

fn words_of(acknowledgement: Acknowledgement) -> AcknowledgementWords
    ensures { result ≡ acknowledgement_words acknowledgement }
{
    AcknowledgementWords {
        command: acknowledgement.stopped.command,
        slot: acknowledgement.slot.unwrap_or(0),
        gerrorn: acknowledgement.gerrorn,
    }
}

fn refused(fault: RemedyFault) -> Status
    ensures { result ≡ fault_status fault }
{
    match fault {
        RemedyFault::NotStopped => Status::Acknowledgement(AckFault::NoError),
        RemedyFault::NotIllegal => Status::NotIllegal,
        RemedyFault::IsSync => Status::SyncStays,
    }
}
