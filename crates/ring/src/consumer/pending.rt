//! A command that was read and not yet taken.
ghost use Rattle.std.specs.Prelude.{◌≡◌, ◌∷◌, ◌++◌, []};
ghost use Rattle.ring.specs.Runs.{Consumer as ConsumerOf, outcome_of};
ghost use Rattle.ring.specs.table.{Grew};
ghost use Rattle.ring.specs.consumer.Pendings.{HasSeen, run_of};
ghost use Rattle.ring.specs.consumer.Completing.{completed, unknowing, taken_of};

use crate::consumer::{Consumer, PendingRun};
use crate::device::Device;
use crate::ring::Ring;
use cmdcodec::Raw;
use ringcore::Outcome;
use std::marker::Model;

/// The command at the head, as it was read. It must be spent by `complete` or `put_back`.
pub struct Pending<D: Device> {
    pub(crate) run: PendingRun<D>,
}

impl<D: Device> Model for Pending<D> {
    ghost use Rattle.std.specs.Prelude.{◌≡◌, ◌∷◌, []};
    ghost use Rattle.ring.specs.consumer.Pendings.{OneValue, first_of};

    ghost Value = { OneValue D };

    ghost view = { λ p. record { consumer = p.run.consumer; raw = first_of p.run.raws } };

    ghost invariant = { λ p. p.run.raws ≡ first_of p.run.raws ∷ [] };
}

impl<D: Device> Pending<D> {
    /// Returns the command.
    pub fn raw(&self) -> Raw
        ensures { result ≡ self.now.raw }
    {
        self.run.get(0).unwrap()
    }

    /// Leaves the command in the ring: the next take finds it again.
    pub fn put_back(self) -> Consumer<D>
        ensures consumer { result ≡ self.consumer }
        ensures seen { HasSeen result.trail self.raw }
    {
        let Pending { run } = self;
        run.put_back()
    }

    /// Takes the command, and acknowledges it if it is a CMD_SYNC. `device` must be settled for all that was
    /// taken and this command.
    pub fn complete(self, ring: &Ring, outcome: Outcome, device: &D) -> Consumer<D>
        requires ring { self.consumer.ring ≡ ring.now }
        requires outcome { outcome ≡ outcome_of self.raw }
        requires settled { D.settled device.now (taken_of self.consumer.trail
            ++ record { raw = self.raw; outcome = outcome } ∷ []) }
        ensures consumer { record result { history = [] }
            ≡ completed 1 device.now (unknowing (run_of self)) }
        ensures history { Grew ConsumerOf self.consumer.trail result.trail self.consumer.history
            result.history }
        ensures ring { result.ring ≡ self.consumer.ring }
        ensures taken { taken_of result.trail
            ≡ taken_of self.consumer.trail ++ record { raw = self.raw; outcome = outcome } ∷ [] }
    {
        let Pending { run } = self;
        run.complete_run(ring, 1, outcome, device)
    }
}
