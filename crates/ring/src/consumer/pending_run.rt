//! A run of commands that was read and not yet taken.
ghost use Rattle.std.specs.Prelude.{◌≡◌, ◌≤◌, ◌∷◌, ◌++◌, ◌+◌, ℕ, List, length, map, slice_get, take, []};
ghost use Rattle.ring.specs.Runs.{Raw as RawOf, Replaced, Consumer as ConsumerOf, outcome_of};
ghost use Rattle.ringcore.specs.Limits.{most_reserved};
ghost use Rattle.ring.specs.table.{Grew};
ghost use Rattle.ring.specs.consumer.Pendings.{HasSeen};
ghost use Rattle.ring.specs.consumer.Completing.{completed, unknowing, taken_of, with_outcome, HasOutcome};

use crate::consumer::{Commands, Consumer, ConsumerPort, Lent};
use crate::device::Device;
use crate::ring::Ring;
use cmdcodec::Raw;
use ringcore::{Outcome, laws};
use std::marker::Model;

/// Commands from the head on, as they were read. It must be spent by `complete_run` or `put_back`.
pub struct PendingRun<D: Device> {
    pub(crate) port: ConsumerPort,
    pub(crate) commands: Commands,
    pub(crate) lent: Lent<D>,
}

impl<D: Device> Model for PendingRun<D> {
    ghost use Rattle.ring.specs.consumer.Consumers.{consumer_of, IsCurrent};
    ghost use Rattle.ring.specs.consumer.Pendings.{PendingValue, IsPending};

    ghost Value = { PendingValue D };

    ghost view = { λ p. record { consumer = consumer_of p.port p.lent; raws = p.commands } };

    ghost invariant = { λ p. IsPending p.port p.commands × IsCurrent p.port.trail };
}

impl<D: Device> PendingRun<D> {
    /// Returns how many commands it has, 1 to 64.
    pub fn len(&self) -> u32
        ensures value { result ≡ length self.now.raws }
        ensures some { 1 ≤ result }
        ensures few { result ≤ 64 }
        // Together with all that was taken they are no more than a ring ever has.
        ensures in_all { length (taken_of self.now.consumer.trail) + result ≤ most_reserved }
    {
        laws::consumer_trail();
        self.port.knows_its_steps();
        self.commands.len()
    }

    /// Returns the command at this place of the run, from 0, or `None` past the last.
    pub fn get(&self, place: u32) -> Option<Raw>
        ensures { result ≡ slice_get self.now.raws place }
    {
        self.commands.get(place)
    }

    /// Leaves the commands in the ring: the next take finds the first of them again.
    pub fn put_back(self) -> Consumer<D>
        ensures consumer { result ≡ self.consumer }
        ensures seen { (raw : RawOf) (rest : List RawOf) → self.raws ≡ raw ∷ rest
            → HasSeen result.trail raw }
    {
        let PendingRun {
            port,
            commands,
            lent,
        } = self;
        Consumer {
            port,
            commands,
            lent,
        }
    }

    /// Takes the first `count` commands, and then acknowledges each CMD_SYNC among them. `device` must be
    /// settled for all that was taken and these.
    pub fn complete_run(self, ring: &Ring, count: u32, outcome: Outcome, device: &D) -> Consumer<D>
        requires ring { self.consumer.ring ≡ ring.now }
        requires some { 1 ≤ count }
        requires most { count ≤ length self.raws }
        requires outcome { HasOutcome outcome (take count self.raws) }
        requires one { outcome ≡ Replaced → count ≡ 1 }
        requires settled { D.settled device.now (taken_of self.consumer.trail
            ++ map (with_outcome outcome) (take count self.raws)) }
        ensures consumer { record result { history = [] }
            ≡ completed count device.now (unknowing self) }
        ensures history { Grew ConsumerOf self.consumer.trail result.trail self.consumer.history
            result.history }
        ensures ring { result.ring ≡ self.consumer.ring }
        ensures taken { taken_of result.trail
            ≡ taken_of self.consumer.trail ++ map (with_outcome outcome) (take count self.raws) }
    {
        let _ = outcome;
        let PendingRun {
            port,
            commands,
            lent: _,
        } = self;
        Consumer {
            port: port.complete_run(ring, &commands, count),
            commands,
            lent: Lent::of(device),
        }
    }
}
