//! What became of the commands that were settled.
ghost use Rattle.std.specs.Prelude.{◌≡◌, ◌<◌, suc, true, false, [], IfOk};
ghost use Rattle.cmdcodec.specs.Opcodes.{is_sync};
ghost use Rattle.ring.specs.consumer.Completing.{IsClosingSync, sync_sender, sync_number};
ghost use Rattle.batch_outcomes.specs.Settled.{last_of, AreNumbered};
ghost use Rattle.batch_outcomes.specs.Outcomes.{IsOutcome};
ghost use Rattle.hardware_queue.specs.Fates.{settled_with, is_carried_out, over_behind, remedied};

use crate::flight::InFlight;
use crate::remedy::Remedy;
use batch_outcomes::{BatchOutcome, Outcomes};
use cmdcodec::{Raw, cell_owner};
use ring::Outcome;
use std::alloc::{AllocError, Global};
use std::marker::Model;

/// What became of the commands that were settled, and whether the next that the hardware was shown was written over.
#[derive(Drop)]
pub struct Fates {
    outcomes: Outcomes,
    is_written_over: bool,
}

impl Model for Fates {
    ghost use Rattle.hardware_queue.specs.Fates.{FatesValue};

    ghost Value = { FatesValue };

    ghost view = { λ f. record { settled = f.outcomes.settled; senders = f.outcomes.senders; over = f.is_written_over } };
}

impl Fates {
    pub fn new(alloc: Global, senders: u32) -> Result<Fates, AllocError>
        ensures { IfOk result (λ f. f ≡ record { settled = []; senders = senders; over = false }) }
    {
        Ok(Fates {
            outcomes: Outcomes::new(alloc, senders)?,
            is_written_over: false,
        })
    }

    /// Returns how many senders there are.
    pub fn senders(&self) -> usize
        ensures { result ≡ self.now.senders }
    {
        self.outcomes.senders()
    }

    /// A witness that the CMD_SYNCs of each sender are numbered. It does nothing.
    pub fn are_numbered(&self)
        ensures { AreNumbered self.now.settled }
    {
        self.outcomes.are_numbered();
    }

    /// An error was acknowledged: by a replacement the next command that the hardware was shown was written over.
    pub fn remedy(&mut self, remedy: Remedy)
        ensures { self.new ≡ remedied remedy self.old }
    {
        if remedy == Remedy::Replace {
            self.is_written_over = true;
        }
    }

    /// A command was settled.
    pub fn settle(&mut self, command: InFlight)
        requires closing { is_sync command.raw ≡ true → IsClosingSync command.raw }
        requires known { is_sync command.raw ≡ true → sync_sender command.raw < self.old.senders }
        requires next { is_sync command.raw ≡ true
            → sync_number command.raw ≡ suc (last_of (sync_sender command.raw) self.old.settled) }
        ensures { self.new ≡ settled_with self.old command }
    {
        let over = self.is_written_over;
        self.is_written_over = stays_over(over, command.outcome);
        let raw = command.raw;
        if raw.is_sync() {
            self.outcomes
                .close(closing_sender(raw), closing_number(raw));
        } else {
            self.outcomes.settle(is_carried_out(over, command.outcome));
        }
    }

    /// Returns what became of a sender's batch.
    pub fn outcome(&self, sender: u32, number: u32) -> BatchOutcome
        requires { sender < self.now.senders }
        ensures { IsOutcome self.now.settled sender number result }
    {
        self.outcomes.outcome(sender, number)
    }
}

fn is_carried_out(over: bool, outcome: Outcome) -> bool
    ensures { result ≡ is_carried_out over outcome }
{
    match outcome {
        Outcome::Applied => !over,
        Outcome::Replaced => false,
    }
}

fn stays_over(over: bool, outcome: Outcome) -> bool
    ensures { result ≡ over_behind over outcome }
{
    match outcome {
        Outcome::Applied => false,
        Outcome::Replaced => over,
    }
}

/// Returns the sender of a closing CMD_SYNC, by the completion cell that it writes to.
fn closing_sender(raw: Raw) -> u32
    requires { IsClosingSync raw }
    ensures { result ≡ sync_sender raw }
{
    match cell_owner(raw.hi) {
        Some(owner) => owner as u32,
        None => 0,
    }
}

/// Returns the number of a closing CMD_SYNC: its MSIDATA.
fn closing_number(raw: Raw) -> u32
    ensures { result ≡ sync_number raw }
{
    (raw.lo / 0x1_0000_0000) as u32
}
