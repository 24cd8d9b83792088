//! The sender, who reserves slots for batches, writes them and hands them over.
ghost use Rattle.std.specs.Prelude.{◌≡◌, ◌≢◌, ◌∷◌, ◌+◌, ◌<◌, ◌≤◌, true, false, IfOk, IfErr, MatchResult, []};
ghost use Rattle.cmdcodec.specs.Bodies.{IsBody};
ghost use Rattle.qindex.specs.ControlWord.{IsControl};
ghost use Rattle.qindex.specs.Positions.{size};
ghost use Rattle.ring.specs.Runs.{Look, Close, Ask, Sender as SenderOf, looked, batches_made, length_with, world, control as control_of};
ghost use Rattle.ring.specs.table.{StandsInARun, IsHistory, GrewBy, Grew, AreApplied, SitsFor};
ghost use Rattle.ring.specs.sender.Senders.{HasAsked};
ghost use Rattle.ring.specs.sender.GoingOn.{WentOn, HasOpened};
ghost use Rattle.ring.specs.sender.Sending.{IsReservedWithin, IsGivenUpWith};
ghost use Rattle.ring.specs.sender.Reserving.{HasRoom, IsReserved, IsRefused, IsWon, IsLost, Fits, HasBatchLeft};

mod batch_kind;
mod batch_length;
mod cause;
mod open_reservation;
mod receipt;
mod sending;
mod tally;
mod unbound_reservation;

use crate::ring::Ring;
use crate::sender::batch_length::batch_length;
use crate::table::{Participants, Port};
use atomic_table::Seat;
use batch::{Batch, BorrowedBatch};
pub use batch_kind::{Bare, BatchKind, Closing};
pub use cause::{Cause, Refused};
pub use open_reservation::{BareReservation, OpenReservation, Reservation};
use qindex::Control;
pub use receipt::Receipt;
use ringcore::laws::newest_event;
use ringcore::world_law;
use std::marker::{Brand, Model, PhantomData};
pub use tally::Tally;
pub use unbound_reservation::UnboundReservation;

/// One of a ring's senders. It may move to another thread.
#[derive(Drop)]
pub struct Sender {
    pub(crate) port: Port,
    pub(crate) tally: Tally,
}

impl Model for Sender {
    ghost use Rattle.ring.specs.sender.Senders.{SenderValue, IsSender};

    ghost Value = { SenderValue };

    ghost view = { λ s. record { ring = s.port.ring; number = s.tally.sender; trail = s.port.trail; history = s.port.history } };

    ghost invariant = { λ s. IsSender s.port s.tally };
}

impl Sender {
    /// Returns its number, from 0.
    pub fn id(&self) -> u32
        ensures { result ≡ self.now.number }
    {
        self.tally.sender
    }

    pub(crate) fn into_seat(self) -> Seat<(), Participants>
        ensures { SitsFor result.table_id result.me self.ring (SenderOf self.number) self.trail
            self.history }
    {
        let Sender { port, tally: _ } = self;
        port.into_seat()
    }

    /// A witness that all its steps are steps of one run of the ring. It does nothing.
    pub fn trail_stands_in_a_run(&self)
        ensures trail { StandsInARun self.now.ring.made_with (SenderOf self.now.number)
            self.now.trail }
        ensures history { IsHistory self.now.ring.made_with (SenderOf self.now.number)
            self.now.trail self.now.history }
    {
        self.port.trail_stands_in_a_run();
    }

    /// Returns what the control word says at this moment: SMMU_CMDQ_PROD, SMMU_CMDQ_CONS, and whether the
    /// ring is closed.
    pub fn look(&mut self, ring: &Ring) -> Control
        requires { self.old.ring ≡ ring.now }
        ensures trail { record self.new { history = [] }
            ≡ record self.old { trail = Look result ∷ self.old.trail; history = [] } }
        ensures control { IsControl self.old.ring.made_with.geometry result }
        ensures history { GrewBy (SenderOf self.old.number) (Look result) self.old.history
            self.new.history }
        ensures current { result
            ≡ control_of self.old.ring.made_with.geometry (world self.new.history) }
    {
        self.port.look(ring)
    }

    /// Closes the ring: from now on no sender can reserve (own).
    pub fn close(&mut self, ring: &Ring)
        requires { self.old.ring ≡ ring.now }
        ensures trail { record self.new { history = [] }
            ≡ record self.old { trail = Close ∷ self.old.trail; history = [] } }
        ensures history { GrewBy (SenderOf self.old.number) Close self.old.history
            self.new.history }
    {
        self.port.close(ring, self.tally.sender);
    }

    /// Returns the number in its completion cell: that of its last CMD_SYNC that completed, or 0 if none has.
    pub fn done_up_to(&mut self, ring: &Ring) -> u32
        requires { self.old.ring ≡ ring.now }
        ensures asked { record self.new { history = [] }
            ≡ record self.old { trail = Ask result ∷ self.old.trail; history = [] } }
        ensures few { result ≤ self.old.ring.made_with.max_batches }
        ensures history { GrewBy (SenderOf self.old.number) (Ask result) self.old.history
            self.new.history }
        ensures told { AreApplied self.new.history self.old.number result }
    {
        newest_event();
        world_law();
        let found = self.port.ask(ring, self.tally.sender);
        self.port.trail_stands_in_a_run();
        found
    }

    /// Whether the CMD_SYNC of `receipt` has completed, by the sender's completion cell.
    pub fn is_done(&mut self, ring: &Ring, receipt: &Receipt) -> bool
        requires ring { self.old.ring ≡ ring.now }
        requires receipt { receipt.now.sender ≡ self.old.number }
        ensures asked { HasAsked receipt.now.number self.old self.new result }
        ensures history { Grew (SenderOf self.old.number) self.old.trail self.new.trail
            self.old.history self.new.history }
        ensures told { result ≡ true
            → AreApplied self.new.history self.old.number receipt.now.number }
        ensures ring { self.new.ring ≡ self.old.ring }
        ensures id { self.new.number ≡ self.old.number }
    {
        receipt.number() <= self.done_up_to(ring)
    }

    /// Returns how many more batches it may reserve in the ring's life, of either kind.
    pub fn batches_left(&self, ring: &Ring) -> u32
        requires { self.now.ring ≡ ring.now }
        ensures { result + batches_made self.now.trail ≡ self.now.ring.made_with.max_batches }
    {
        ring.max_batches() - self.tally.batches
    }

    /// Reserves the next slots for a whole batch and its closing CMD_SYNC, with one look and one exchange.
    ///
    /// Errors, in this order: Q4 if the batch has more commands than the ring has slots, Q5 if all its
    /// batches were reserved, Q1 if the ring is closed, Q2 if it has too little room, Q3 if another changed
    /// the ring first.
    pub fn reserve<'b>(self, ring: &Ring, batch: &'b Batch) -> Result<Reservation<'b>, Refused>
        requires { self.ring ≡ ring.now }
        ensures reserved { IfOk result (λ r. IsReserved batch.now true self r) }
        ensures refused { IfErr result (λ e. IsRefused batch.now true self e.cause e.sender) }
        ensures opened { IfOk result (λ r. HasOpened self r) }
        ensures given_back { IfErr result (λ e. WentOn self e.sender) }
    {
        self.reserve_as::<Closing>(ring, batch.as_borrowed())
    }

    /// The same for a batch without a closing CMD_SYNC, which has no number (own).
    pub fn reserve_bare<'b>(
        self,
        ring: &Ring,
        batch: &'b Batch,
    ) -> Result<BareReservation<'b>, Refused>
        requires { self.ring ≡ ring.now }
        ensures reserved { IfOk result (λ r. IsReserved batch.now false self r) }
        ensures refused { IfErr result (λ e. IsRefused batch.now false self e.cause e.sender) }
        ensures opened { IfOk result (λ r. HasOpened self r) }
        ensures given_back { IfErr result (λ e. WentOn self e.sender) }
    {
        self.reserve_as::<Bare>(ring, batch.as_borrowed())
    }

    /// The same for a batch of either kind whose commands stay with their owner. Looks, and tries to reserve
    /// if the batch fits.
    pub fn reserve_as<'b, K: BatchKind>(
        self,
        ring: &Ring,
        batch: BorrowedBatch<'b>,
    ) -> Result<OpenReservation<'b, K>, Refused>
        requires { self.ring ≡ ring.now }
        ensures reserved { IfOk result (λ r. IsReserved batch.entry K.closes self r) }
        ensures refused { IfErr result (λ e. IsRefused batch.entry K.closes self e.cause e.sender) }
        ensures opened { IfOk result (λ r. HasOpened self r) }
        ensures given_back { IfErr result (λ e. WentOn self e.sender) }
    {
        let mut sender = self;
        let many = batch_length::<K>(&batch);
        let size = ring.geometry().size();
        if many > size {
            return Err(Cause::TooLong.refused(sender));
        }
        if sender.tally.batches >= ring.max_batches() {
            return Err(Cause::Exhausted.refused(sender));
        }
        let seen = sender.look(ring);
        sender.port.looks_tell();
        if seen.closed {
            return Err(Cause::Closed.refused(sender));
        }
        if seen.prod.distance(seen.cons) + many > size {
            return Err(Cause::Full.refused(sender));
        }
        sender.exchange::<K>(ring, batch, many, seen)
    }

    /// Reserves as `reserve_as` does. If the ring has too little room or another changed it first,
    /// it tries again, with at most `tries` tries in all, 1 or more.
    ///
    /// Errors: those of `reserve`, from the last try.
    pub fn reserve_within<'b, K: BatchKind>(
        self,
        ring: &Ring,
        batch: BorrowedBatch<'b>,
        tries: u32,
    ) -> Result<OpenReservation<'b, K>, Refused>
        requires ring { self.ring ≡ ring.now }
        requires tries { 1 ≤ tries }
        ensures reserved { IfOk result (λ r. IsReservedWithin batch.entry K.closes tries self r) }
        ensures refused { IfErr result (λ e. IsGivenUpWith batch.entry K.closes tries self e) }
        ensures opened { IfOk result (λ r. HasOpened self r) }
        ensures given_back { IfErr result (λ e. WentOn self e.sender) }
    {
        let mut sender = self;
        // One call of `reserve_as`, so that it is inlined and no reservation moves through memory.
        for tried in 0..tries {
            match sender.reserve_as::<K>(ring, batch.reborrow()) {
                Ok(reservation) => return Ok(reservation),
                Err(refused) => {
                    if tried + 1 == tries || !refused.cause.may_pass() {
                        return Err(refused);
                    }
                    sender = refused.sender;
                }
            }
        }
        unreachable!()
    }

    /// The exchange, after a look that found the room.
    fn exchange<'b, K: BatchKind>(
        self,
        ring: &Ring,
        batch: BorrowedBatch<'b>,
        many: u32,
        seen: Control,
    ) -> Result<OpenReservation<'b, K>, Refused>
        requires ring { self.ring ≡ ring.now }
        requires body { IsBody batch }
        requires many { many ≡ length_with K.closes batch }
        requires seen { looked self.trail ≡ Some seen }
        requires room { HasRoom batch K.closes self seen }
        requires left { HasBatchLeft self }
        requires fits { Fits batch K.closes self }
        requires control { IsControl self.ring.made_with.geometry seen }
        ensures won { IfOk result (λ r. IsWon batch.entry K.closes seen self r) }
        ensures lost { IfErr result (λ e. (e.cause ≡ Cause.Contended)
            × IsLost batch.entry K.closes seen self e.sender) }
        ensures ring { MatchResult result (λ r. r.ring ≡ self.ring) (λ e. e.sender.ring
            ≡ self.ring) }
        ensures id { MatchResult result (λ r. r.sender ≡ self.number) (λ e. e.sender.number
            ≡ self.number) }
    {
        let Sender { mut port, tally } = self;
        if port.exchange::<Brand>(ring, tally.sender, &batch, K::closes(), many, &seen) {
            return Ok(OpenReservation {
                port,
                tally: tally.with_batch::<K>(),
                batch,
                start: seen.prod,
                written: 0,
                flipped: 0,
                kind: PhantomData,
            });
        }
        Err(Cause::Contended.refused(Sender { port, tally }))
    }
}
