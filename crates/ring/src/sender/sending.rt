//! Sends a whole batch with one call.
ghost use Rattle.std.specs.Prelude.{◌≡◌, ◌≤◌, true, false, IfOk, IfErr};
ghost use Rattle.ring.specs.Runs.{IsSettled};
ghost use Rattle.ring.specs.sender.GoingOn.{WentOn};
ghost use Rattle.ring.specs.sender.Sending.{IsSent, IsSentBare, IsGivenUpWith};

use crate::ring::Ring;
use crate::sender::{Bare, Closing, Receipt, Refused, Sender};
use batch::{Batch, BorrowedBatch};

impl Sender {
    /// Reserves and publishes a batch with its closing CMD_SYNC. If the ring has too little room or another
    /// changed it first, it tries again, with at most `tries` tries in all.
    ///
    /// Errors: those of `reserve`, from the last try.
    pub fn send(self, ring: &Ring, batch: &Batch, tries: u32) -> Result<(Sender, Receipt), Refused>
        requires ring { self.ring ≡ ring.now }
        requires tries { 1 ≤ tries }
        ensures sent { IfOk result (λ r. IsSent batch.now tries self r.0 r.1) }
        ensures refused { IfErr result (λ e. IsGivenUpWith batch.now true tries self e) }
        ensures settled { IfOk result (λ r. IsSettled r.0.trail) }
        ensures own { IfOk result (λ r. r.1.sender ≡ self.number) }
        ensures went_on { IfOk result (λ r. WentOn self r.0) }
        ensures given_back { IfErr result (λ e. WentOn self e.sender) }
    {
        self.send_borrowed(ring, batch.as_borrowed(), tries)
    }

    /// The same for commands that stay with their owner.
    pub fn send_borrowed(
        self,
        ring: &Ring,
        batch: BorrowedBatch<'_>,
        tries: u32,
    ) -> Result<(Sender, Receipt), Refused>
        requires ring { self.ring ≡ ring.now }
        requires tries { 1 ≤ tries }
        ensures sent { IfOk result (λ r. IsSent batch.entry tries self r.0 r.1) }
        ensures refused { IfErr result (λ e. IsGivenUpWith batch.entry true tries self e) }
        ensures settled { IfOk result (λ r. IsSettled r.0.trail) }
        ensures own { IfOk result (λ r. r.1.sender ≡ self.number) }
        ensures went_on { IfOk result (λ r. WentOn self r.0) }
        ensures given_back { IfErr result (λ e. WentOn self e.sender) }
    {
        match self.reserve_within::<Closing>(ring, batch, tries) {
            Ok(reservation) => Ok(reservation.publish(ring)),
            Err(refused) => Err(refused),
        }
    }

    /// The same for a batch without a closing CMD_SYNC (own).
    pub fn send_bare(self, ring: &Ring, batch: &Batch, tries: u32) -> Result<Sender, Refused>
        requires ring { self.ring ≡ ring.now }
        requires tries { 1 ≤ tries }
        ensures sent { IfOk result (λ t. IsSentBare batch.now tries self t) }
        ensures refused { IfErr result (λ e. IsGivenUpWith batch.now false tries self e) }
        ensures settled { IfOk result (λ t. IsSettled t.trail) }
        ensures went_on { IfOk result (λ t. WentOn self t) }
        ensures given_back { IfErr result (λ e. WentOn self e.sender) }
    {
        self.send_borrowed_bare(ring, batch.as_borrowed(), tries)
    }

    /// The same for commands that stay with their owner.
    pub fn send_borrowed_bare(
        self,
        ring: &Ring,
        batch: BorrowedBatch<'_>,
        tries: u32,
    ) -> Result<Sender, Refused>
        requires ring { self.ring ≡ ring.now }
        requires tries { 1 ≤ tries }
        ensures sent { IfOk result (λ t. IsSentBare batch.entry tries self t) }
        ensures refused { IfErr result (λ e. IsGivenUpWith batch.entry false tries self e) }
        ensures settled { IfOk result (λ t. IsSettled t.trail) }
        ensures went_on { IfOk result (λ t. WentOn self t) }
        ensures given_back { IfErr result (λ e. WentOn self e.sender) }
    {
        match self.reserve_within::<Bare>(ring, batch, tries) {
            Ok(reservation) => Ok(reservation.publish(ring)),
            Err(refused) => Err(refused),
        }
    }
}
