//! The owner of a hardware queue.
ghost use Rattle.std.specs.Prelude.{◌≡◌, ◌≤◌, ◌^◌, [], length, None, Some, OnOk, OnErr, IfErr};
ghost use Rattle.qindex.specs.Positions.{size};
ghost use Rattle.hardware_queue.specs.Queues.{SyncsComplete};
ghost use Rattle.hardware_queue.specs.declared.state.QueueState.TheVariants.{Running, Stopped as StoppedWith};
ghost use Rattle.hardware_queue.specs.declared.command_error.CommandError.{CommandError as CommandErrorOf};
ghost use Rattle.hardware_queue.specs.Owners.{IsNew, HasPushed, HasPolled, IsAcknowledged, IsBroken, room, refusal as refusal_of, state_after, IsOwned, IsStoppedHere, WasRestarted};

pub mod registers;
mod remedies;
mod slots;
mod supplies;

use crate::command_error::CommandError;
use crate::command_queue::CommandQueue;
use crate::queue_progress::Progress;
use crate::remedy::{Remedy, RemedyFault};
use crate::state::QueueState;
use cmdcodec::Raw;
use qindex::{Geometry, Index, indexes_tell_the_queue};
use registers::{is_error_active, look_at_cons, toggle};
use remedies::{apply, refusal};
use ring::Device;
use slots::write_all;
use std::marker::Model;

/// Holds a hardware queue, and knows what the hardware may still read of it.
#[derive(Drop)]
pub struct Owner<Q: CommandQueue> {
    queue: Q,
    /// The index behind the last command that was shown.
    prod: Index,
    /// The index of the first command that isn't known to be consumed.
    cons: Index,
    /// CMDQ_ERR of SMMU_GERRORN.
    acknowledged: bool,
    state: QueueState,
}

impl<Q: CommandQueue> Model for Owner<Q> {
    ghost use Rattle.hardware_queue.specs.Owners.{OwnerValue, IsOwner};

    ghost Value = { OwnerValue Q };

    ghost view = { λ o. record { queue = o.queue; state = o.state } };

    ghost invariant = { λ o. IsOwner (Q.queue o.queue) o.prod o.cons o.acknowledged o.state };
}

/// A queue is settled for a list of taken commands if the hardware has consumed what it gets for them, in this order.
impl<Q: CommandQueue> Device for Owner<Q> {
    ghost use Rattle.hardware_queue.specs.Flights.{HasConsumedAll};

    ghost settled = { λ o taken. HasConsumedAll (Q.queue o.queue) taken };
}

impl<Q: CommandQueue> Owner<Q> {
    /// Takes a queue with these many slots, whose hardware has not begun: SMMU_CMDQ_PROD and SMMU_CMDQ_CONS are 0, and
    /// CMDQ_ERR of SMMU_GERROR and of SMMU_GERRORN too.
    pub fn new(queue: Q, geometry: Geometry) -> Owner<Q>
        requires { IsNew (Q.queue queue) geometry }
        ensures { result ≡ record { queue = queue; state = Running } }
    {
        let start = Index::new(geometry, 0).unwrap();
        Owner {
            queue,
            prod: start,
            cons: start,
            acknowledged: false,
            state: QueueState::Running,
        }
    }

    /// Returns what the last look found. From `QueueState::Broken` on it stays so until `restart`.
    pub fn state(&self) -> QueueState
        ensures { result ≡ self.now.state }
    {
        self.state
    }

    /// Returns how many slots the queue has.
    pub fn slots(&self) -> u32
        ensures value { result ≡ size (Q.queue self.now.queue).geometry }
        ensures few { result ≤ 2 ^ 19 }
    {
        self.prod.geometry().size()
    }

    /// Returns how many more commands fit.
    pub fn room(&self) -> u32
        ensures value { result ≡ room (Q.queue self.now.queue) }
        ensures owned { IsOwned (Q.queue self.now.queue) }
    {
        self.prod.geometry().size() - self.prod.distance(self.cons)
    }

    /// Copies as many of these commands as fit into the queue, and then shows them all. Returns how many.
    pub fn push(&mut self, raws: &[Raw]) -> u32
        ensures pushed { HasPushed raws.now (Q.queue self.old.queue) (Q.queue self.new.queue)
            result }
        ensures state { self.new.state ≡ self.old.state }
    {
        let room = self.room();
        let count = raws.len().min(room as usize) as u32;
        indexes_tell_the_queue();
        write_all(&mut self.queue, self.prod, raws, count);
        self.prod = self.prod.forward(count);
        self.queue.show_prod(self.prod.get());
        count
    }

    /// Reads SMMU_GERROR and then SMMU_CMDQ_CONS, once each. CONS is believed only if it is neither behind what was
    /// consumed nor ahead of what was shown, and else not again until `restart`.
    pub fn poll(&mut self) -> Progress
        requires { ¬ IsBroken self.old.state }
        ensures polled { HasPolled (Q.queue self.old.queue) (Q.queue self.new.queue) result }
        ensures state { self.new.state ≡ state_after result }
    {
        let errors = self.queue.read_gerror();
        let in_flight = self.prod.distance(self.cons);
        let is_stopped = is_error_active(errors, self.acknowledged, in_flight);
        let (word, found) = look_at_cons(&mut self.queue, self.prod, self.cons);
        let Some(consumed) = found else {
            self.state = QueueState::Broken(word);
            return Progress::Broken(word);
        };
        self.cons = self.cons.forward(consumed);
        if is_stopped {
            let error = CommandError::of(word);
            self.state = QueueState::Stopped(error);
            return Progress::Stopped { consumed, error };
        }
        self.state = QueueState::Running;
        Progress::Consumed(consumed)
    }

    /// Acknowledges the error with which the last look found the hardware stopped. It reads the command at which it
    /// stopped again, or, if it calls that illegal, a CMD_SYNC in its place. Other errors in SMMU_GERROR aren't
    /// acknowledged.
    ///
    /// Errors, in this order, each changing nothing: `NotStopped`; `NotIllegal`.
    pub fn acknowledge(&mut self, remedy: Remedy) -> Result<(), RemedyFault>
        ensures refused { IfErr result (λ fault. refusal_of remedy self.old.state ≡ Some fault) }
        ensures kept { OnErr result (self.new ≡ self.old) }
        ensures fits { OnOk result (refusal_of remedy self.old.state ≡ None) }
        ensures done { OnOk result (IsAcknowledged remedy self.old.state
            (Q.queue self.old.queue) (Q.queue self.new.queue)) }
        ensures running { OnOk result (self.new.state ≡ Running) }
    {
        if let Some(fault) = refusal(remedy, self.state) {
            return Err(fault);
        }
        apply(remedy, &mut self.queue, self.cons.place());
        let word = toggle(self.queue.read_gerrorn());
        self.queue.write_gerrorn(word);
        self.acknowledged = word % 2 == 1;
        self.state = QueueState::Running;
        Ok(())
    }

    /// Disables the queue and enables it again: the hardware reads again what isn't known to be consumed, in order, and
    /// then what is shown next.
    pub fn restart(&mut self)
        ensures restarted { WasRestarted (Q.queue self.old.queue) (Q.queue self.new.queue) }
        ensures running { self.new.state ≡ Running }
    {
        let word = self.queue.restart(self.prod.get(), self.cons.get());
        self.acknowledged = word % 2 == 1;
        self.state = QueueState::Running;
    }

    /// A witness of what a consumed CMD_SYNC tells. It does nothing.
    pub fn syncs_complete(&self)
        ensures { SyncsComplete (Q.has_effect self.now.queue) (Q.queue self.now.queue) }
    {
        self.queue.syncs_complete();
    }

    /// A witness that the command at which it is stopped was shown and isn't consumed. It does nothing.
    pub fn stopped_is_in_flight(&self)
        ensures { (error : CommandErrorOf) → self.now.state ≡ StoppedWith error
            → IsStoppedHere (Q.queue self.now.queue) error }
    {
        let _ = &self.cons;
    }

    /// Gives the queue back.
    pub fn into_queue(self) -> Q
        ensures { result ≡ self.queue }
    {
        self.queue
    }

    /// Returns the queue.
    pub fn queue(&self) -> &Q
        ensures { result.now ≡ self.now.queue }
    {
        &self.queue
    }
}
