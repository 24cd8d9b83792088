//! The host's commands for a guest's, sent batch by batch.
ghost use Rattle.std.specs.Prelude.{◌≡◌, ◌≤◌, true, All, IfOk, IfErr, OnErr};
ghost use Rattle.cmdcodec.specs.Bodies.{IsBody};
ghost use Rattle.ring.specs.sender.GoingOn.{WentOn};
ghost use Rattle.ring.specs.sender.Sending.{IsGivenUpWith};
ghost use Rattle.guest_forwarding.specs.Values.{IsForwarding, before_any, behind_batch};
ghost use Rattle.guest_forwarding.specs.Consumed.{Consumed};
ghost use Rattle.guest_forwarding.specs.Carrying.{HasConsumed, IsAllCarriedOut};
ghost use Rattle.guest_forwarding.specs.Forwarding.{IsTaken, IsOwn, IsLast, AreSent, AreConsumed, IsUnsent};
ghost use Rattle.guest_forwarding.specs.Asking.{HasAskedFor, AreToldFor};

use crate::forwarded::Forwarded;
use batch::BorrowedBatch;
use cmdcodec::Raw;
use guest_commands::Guest;
use ring::{Receipt, Refused, Ring, Sender};
use ringcore::laws::consumer_trail;
use ringcore::world_law;
use std::marker::Model;
use std::snapshot::Snapshot;

/// How far a guest's commands have come on their way through a ring, by one of its senders (own).
#[derive(Drop)]
pub struct Forwarding {
    /// Of the last batch.
    last: Option<Receipt>,
    /// The sender once it had sent that, for clauses: it has no bytes.
    sent: Snapshot<Sender>,
}

impl Model for Forwarding {
    ghost use Rattle.guest_forwarding.specs.Values.{ForwardingValue, IsForwarding, forwarding_value};

    ghost Value = { ForwardingValue };

    ghost view = { λ f. forwarding_value f.last f.sent.value };

    ghost invariant = { λ f. IsForwarding (forwarding_value f.last f.sent.value) };
}

impl Forwarding {
    /// By this sender. Nothing is consumed.
    pub fn new(sender: &Sender) -> Forwarding
        ensures { result ≡ before_any sender.now }
    {
        Forwarding {
            last: None,
            sent: Snapshot::of(sender),
        }
    }

    /// Returns the receipt of the last batch that was sent, or `None` if none was.
    pub fn last(&self) -> Option<Receipt>
        ensures { result ≡ self.now.last }
    {
        self.last
    }

    /// Converts a beginning of the guest's commands, as `Guest::convert_all` does, and sends the host's commands for
    /// them with a CMD_SYNC, as `Sender::send_borrowed` does: with at most `tries` tries, 1 or more. If there are none,
    /// nothing is sent (own).
    ///
    /// Errors: the cause of the last try (Q4, Q5, Q1, Q2, Q3), with the sender. Nothing is consumed then.
    pub fn forward(
        &mut self,
        guest: &Guest,
        ring: &Ring,
        sender: Sender,
        commands: &[Raw],
        tries: u32,
    ) -> Result<Forwarded, Refused>
        requires ring { sender.ring ≡ ring.now }
        requires same_sender { WentOn self.old.sender sender }
        requires tries { 1 ≤ tries }
        ensures taken { IfOk result (IsTaken guest.now commands.now) }
        ensures own { IfOk result (IsOwn guest.now commands.now) }
        ensures sent { IfOk result (AreSent guest.now commands.now tries sender self.old self.new) }
        ensures consumed { IfOk result (AreConsumed guest.now commands.now sender self.new) }
        ensures kept { (c : Consumed) → HasConsumed self.old c → HasConsumed self.new c }
        ensures went_on { IfOk result (λ f. WentOn sender f.sender) }
        ensures may_go_on { IfOk result (λ f. WentOn self.new.sender f.sender) }
        ensures refused { IfErr result (IsUnsent guest.now commands.now tries sender) }
        ensures none_consumed { OnErr result (self.new ≡ self.old) }
        ensures given_back { IfErr result (λ e. WentOn sender e.sender) }
        ensures may_try_again { IfErr result (λ e. WentOn self.new.sender e.sender) }
    {
        let converted = guest.convert_all(commands);
        let (consumed, ended) = (converted.taken(), converted.ended());
        if converted.commands().is_empty() {
            return Ok(Forwarded {
                sender,
                consumed,
                ended,
            });
        }
        match self.send(ring, sender, batch_of(converted.commands()), tries) {
            Ok(sender) => Ok(Forwarded {
                sender,
                consumed,
                ended,
            }),
            Err(unsent) => Err(unsent),
        }
    }

    /// Sends a batch of the hypervisor's own, as `Sender::send_borrowed` does: with at most `tries` tries, 1 or more. A
    /// CMD_SYNC of the guest waits for it, too, as for the CMD_CFGI_STE of a stream that the guest configured (own).
    ///
    /// Errors: the cause of the last try (Q4, Q5, Q1, Q2, Q3), with the sender.
    pub fn send(
        &mut self,
        ring: &Ring,
        sender: Sender,
        batch: BorrowedBatch<'_>,
        tries: u32,
    ) -> Result<Sender, Refused>
        requires ring { sender.ring ≡ ring.now }
        requires same_sender { WentOn self.old.sender sender }
        requires tries { 1 ≤ tries }
        ensures sent { IfOk result (λ t. IsLast batch.entry tries sender t self.new) }
        ensures kept { (c : Consumed) → HasConsumed self.old c → HasConsumed self.new c }
        ensures went_on { IfOk result (λ t. WentOn sender t) }
        ensures may_go_on { IfOk result (λ t. WentOn self.new.sender t) }
        ensures refused { IfErr result (λ e. IsGivenUpWith batch.entry true tries sender e) }
        ensures none_sent { OnErr result (self.new ≡ self.old) }
        ensures given_back { IfErr result (λ e. WentOn sender e.sender) }
        ensures may_try_again { IfErr result (λ e. WentOn self.new.sender e.sender) }
    {
        match sender.send_borrowed(ring, batch, tries) {
            Ok((sender, receipt)) => {
                *self = Forwarding::behind(receipt, &sender);
                Ok(sender)
            }
            Err(refused) => Err(refused),
        }
    }

    /// The sender has just sent the batch of this receipt.
    fn behind(receipt: Receipt, sender: &Sender) -> Forwarding
        requires { IsForwarding (behind_batch receipt sender.now) }
        ensures { result ≡ behind_batch receipt sender.now }
    {
        Forwarding {
            last: Some(receipt),
            sent: Snapshot::of(sender),
        }
    }

    /// Whether a CMD_SYNC of the guest behind all that was consumed is complete: the host's CMD_SYNC behind the last
    /// batch is, by the completion cell of the sender, or no batch was sent (own).
    pub fn is_sync_complete(&self, ring: &Ring, sender: &mut Sender) -> bool
        requires ring { sender.old.ring ≡ ring.now }
        requires same_sender { WentOn self.now.sender sender.old }
        ensures asked { HasAskedFor self.now.last sender.old sender.new result }
        ensures told { result ≡ true → AreToldFor self.now.last sender.new }
        ensures carried_out { result ≡ true → IsAllCarriedOut self.now sender.new }
        ensures went_on { WentOn sender.old sender.new }
        ensures may_go_on { WentOn self.now.sender sender.new }
    {
        world_law();
        consumer_trail();
        sender.trail_stands_in_a_run();
        match self.last {
            None => true,
            Some(receipt) => {
                let done = sender.is_done(ring, &receipt);
                sender.trail_stands_in_a_run();
                done
            }
        }
    }
}

/// These commands as a batch.
fn batch_of(commands: &[Raw]) -> BorrowedBatch<'_>
    requires { IsBody commands.now }
    ensures { result ≡ commands.now }
{
    BorrowedBatch::new(commands).ok().unwrap()
}
