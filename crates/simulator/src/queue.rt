//! The command queue on the ring of threads, owned by one: its keeper lends a sender its seat for each call.
ghost use Rattle.std.specs.Prelude.{◌≡◌, ◌<◌, [], true, false, None, Some, IfOk, IfErr, OnOk, Result};
ghost use Rattle.ring.specs.Runs.{Sender, trail_of};
ghost use Rattle.ringcore.specs.machine.Open.{is_open};
ghost use Rattle.ringcore.specs.machine.Faults.{has_sender};
ghost use Rattle.ringcore.specs.RingFaults.{IsNotMade, number_fault};
ghost use Rattle.ring.specs.NewRings.{made_with};
ghost use Rattle.ring.specs.table.Keeping.{RunStands};
ghost use Rattle.ring.specs.Keepers.{IsIdleConsumer};
ghost use Rattle.ring.specs.sender.Reservations.{reserved_number};
ghost use Rattle.simulator.specs.queue.{ring_in, AreNew, IsIdle, LeavesConsumer, tried_by, published, sent_by};
ghost use Rattle.simulator.specs.declared.queue.Seat.TheVariants.{Idle};

mod asking;
mod publishing;
mod reserved;
mod sending;
mod stepping;
mod trying;

use crate::queue::publishing::hand_over;
use crate::queue::sending::send_once;
use crate::queue::trying::try_once;
use batch::{Batch, BorrowedBatch};
use engine::Unit;
pub use reserved::Reserved;
use ring::{Cause, IdleConsumer, IdleReservation, IdleSender, Keeper, Ring, RingFault};
use std::alloc::{AllocError, Global};
use std::marker::Model;

/// What is left of a sender between two calls.
#[derive(Drop)]
pub(crate) enum Seat {
    /// It has no reservation.
    Idle(IdleSender),
    /// It has one, of which nothing is written.
    Open { idle: IdleReservation, batch: Batch },
}

/// A ring with its keeper, and what is left of each sender.
#[derive(Drop)]
pub(crate) struct Queue {
    ring: Ring,
    keeper: Keeper,
    seats: Vec<Seat>,
}

impl Model for Queue {
    ghost use Rattle.simulator.specs.queue.{QueueValue, IsQueue};

    ghost Value = { QueueValue };

    ghost view = { λ q. record { keeper = q.keeper; seats = q.seats.items } };

    ghost invariant = { λ q. IsQueue q.ring (record { keeper = q.keeper; seats = q.seats.items }) };
}

impl Queue {
    /// Returns a queue to which nothing has happened yet, and what is left of its consumer.
    ///
    /// Errors: those of `Keeper::new`, and out of memory.
    pub(crate) fn new(
        alloc: Global,
        log2: u32,
        senders: u32,
        max_batches: u32,
    ) -> Result<(Queue, IdleConsumer<Unit>), RingFault>
        ensures numbers { OnOk result (number_fault log2 senders max_batches ≡ None) }
        ensures ring { IfOk result (λ r. ring_in r.0 ≡ made_with log2 senders max_batches) }
        ensures run { IfOk result (λ r. r.0.keeper.run ≡ []) }
        ensures consumer { IfOk result (λ r. IsIdleConsumer r.0.keeper r.1.head r.1.taken) }
        ensures nothing_lent { IfOk result (λ r. r.1.lent ≡ None) }
        ensures refused { IfErr result (λ fault.
            IsNotMade (number_fault log2 senders max_batches) fault) }
    {
        let (ring, keeper, consumer) = Keeper::new(alloc, log2, senders, max_batches)?;
        match new_seats(alloc, senders) {
            Ok(seats) => {
                let queue = Queue {
                    ring,
                    keeper,
                    seats,
                };
                Ok((queue, consumer))
            }
            Err(error) => Err(RingFault::Memory(error)),
        }
    }

    /// Shows that the keeper's run is a run of the ring. It does nothing.
    pub(crate) fn run_stands(&self)
        ensures { RunStands (ring_in self.now) self.now.keeper.run }
    {
        self.keeper.run_stands();
    }

    /// Whether the ring has a sender of this number.
    pub(crate) fn has_sender(&self, sender: u32) -> bool
        ensures { result ≡ has_sender (ring_in self.now) sender }
    {
        (sender as usize) < self.seats.len()
    }

    /// Whether a sender has an open reservation.
    pub(crate) fn is_open(&self, sender: u32) -> bool
        requires { sender < (ring_in self.now).senders }
        ensures { result ≡ is_open (trail_of (Sender sender) self.now.keeper.run) }
    {
        match &self.seats[sender as usize] {
            Seat::Idle(_) => false,
            Seat::Open { .. } => true,
        }
    }

    /// Tries once, as a sender, to reserve a batch, closed with a CMD_SYNC or not, and keeps the batch.
    ///
    /// Errors, in this order: Q4 and Q5 without a step, Q1 and Q2 after a look.
    pub(crate) fn reserve(
        &mut self,
        sender: u32,
        batch: Batch,
        closes: bool,
    ) -> Result<Reserved, Cause>
        requires known { sender < (ring_in self.old).senders }
        requires settled { is_open (trail_of (Sender sender) self.old.keeper.run) ≡ false }
        ensures run { self.new.keeper.run ≡ (tried_by self.old.keeper sender batch closes).run }
        ensures answer { result ≡ (tried_by self.old.keeper sender batch closes).answer }
        ensures consumer { LeavesConsumer self.old.keeper self.new.keeper }
    {
        let Queue {
            ring,
            keeper,
            seats,
        } = self;
        let idle = idle_in(&seats[sender as usize]);
        match try_once(keeper, ring, idle, batch.as_borrowed(), closes) {
            Ok(idle) => {
                let reserved = Reserved {
                    first: idle.first(),
                    number: idle.number(),
                };
                seats[sender as usize] = Seat::Open { idle, batch };
                Ok(reserved)
            }
            Err((idle, cause)) => {
                seats[sender as usize] = Seat::Idle(idle);
                Err(cause)
            }
        }
    }

    /// Tries once, as a sender, to reserve a batch and publishes it if that worked. Returns its number, if it has one.
    ///
    /// Errors: those of `reserve`.
    pub(crate) fn send(
        &mut self,
        sender: u32,
        batch: BorrowedBatch<'_>,
        closes: bool,
    ) -> Result<Option<u32>, Cause>
        requires known { sender < (ring_in self.old).senders }
        requires settled { is_open (trail_of (Sender sender) self.old.keeper.run) ≡ false }
        ensures run { self.new.keeper.run
            ≡ (sent_by (ring_in self.old) sender batch.entry closes self.old.keeper.run).run }
        ensures answer { result
            ≡ (sent_by (ring_in self.old) sender batch.entry closes self.old.keeper.run).answer }
        ensures consumer { LeavesConsumer self.old.keeper self.new.keeper }
    {
        let Queue {
            ring,
            keeper,
            seats,
        } = self;
        match &mut seats[sender as usize] {
            Seat::Idle(idle) => {
                let (left, sent) = send_once(keeper, ring, *idle, batch, closes);
                *idle = left;
                sent
            }
            Seat::Open { .. } => unreachable!(),
        }
    }

    /// Writes and publishes a sender's open reservation. Returns the number of its batch, if it has one.
    pub(crate) fn publish(&mut self, sender: u32) -> Option<u32>
        requires known { sender < (ring_in self.old).senders }
        requires opened { is_open (trail_of (Sender sender) self.old.keeper.run) ≡ true }
        ensures run { self.new.keeper.run
            ≡ published (ring_in self.old).geometry sender self.old.keeper.run }
        ensures number { result ≡ reserved_number (trail_of (Sender sender) self.old.keeper.run) }
        ensures consumer { LeavesConsumer self.old.keeper self.new.keeper }
    {
        let Queue {
            ring,
            keeper,
            seats,
        } = self;
        let (idle, number) = match &seats[sender as usize] {
            Seat::Open { idle, batch } => (
                hand_over(keeper, ring, *idle, batch.as_borrowed()),
                idle.number(),
            ),
            Seat::Idle(_) => unreachable!(),
        };
        seats[sender as usize] = Seat::Idle(idle);
        number
    }
}

/// Returns the sender of a seat that has no reservation.
fn idle_in(seat: &Seat) -> IdleSender
    requires { IsIdle seat.now }
    ensures { seat.now ≡ Idle result }
{
    match seat {
        Seat::Idle(idle) => *idle,
        Seat::Open { .. } => unreachable!(),
    }
}

/// Returns what is left of each sender of a ring in which nothing has happened.
fn new_seats(alloc: Global, senders: u32) -> Result<Vec<Seat>, AllocError>
    ensures { IfOk result (λ seats. AreNew senders seats.items) }
{
    let mut seats = Vec::new(alloc);
    for sender in 0..senders {
        seats.push(Seat::Idle(IdleSender::new(sender)))?;
    }
    Ok(seats)
}
