//! The consumer's port: its steps, and the index of the head.
ghost use Rattle.std.specs.Prelude.{◌≡◌, ◌∷◌, ◌≤◌, ◌<◌, ◌+◌, ℕ, true, false, length, take, []};
ghost use Rattle.qindex.specs.Positions.{size};
ghost use Rattle.cmdcodec.specs.Opcodes.{is_sync};
ghost use Rattle.qindex.specs.ControlWord.{IsControl};
ghost use Rattle.ringcore.specs.Limits.{most_reserved};
ghost use Rattle.ring.specs.Runs.{Look, Test, Read, Advance, Consumer, same, raws_by, taken_by, found_ready, MayAdvance, world, head, control as control_of};
ghost use Rattle.ring.specs.table.{IsWithinLimits, StandsInARun, WentOn, IsHistory, GrewBy, Grew, EndsTellAll, SitsFor};
ghost use Rattle.ring.specs.consumer.Pendings.{HasReadRun, reads_from};
ghost use Rattle.ring.specs.consumer.Consumers.{KnowsItsSteps, IsCurrent};
ghost use Rattle.ring.specs.consumer.Completing.{completed_trail, acknowledged, AreClosingSyncs, IsDue};

use crate::consumer::commands::Commands;
use crate::ring::Ring;
use crate::table::{Participants, Port};
use atomic_table::Seat;
use cmdcodec::Raw;
use qindex::{Control, Index, indexes_tell_the_queue};
use ringcore::{Half, counts_law, world_law};
use std::marker::{Brand, Model};

/// The consumer's port, with the head that its steps made.
#[derive(Drop)]
pub struct ConsumerPort {
    pub(crate) port: Port,
    /// The index of the next command to take.
    pub(crate) head: Index,
    /// How many commands were taken.
    pub(crate) taken: u64,
}

impl Model for ConsumerPort {
    ghost use Rattle.ring.specs.table.{PortValue};
    ghost use Rattle.ring.specs.consumer.Consumers.{IsAtHead};

    ghost Value = { PortValue };

    ghost view = { λ p. p.port };

    ghost invariant = { λ p. IsAtHead p.port p.head p.taken };
}

impl ConsumerPort {
    pub(crate) fn knows_its_steps(&self)
        ensures { KnowsItsSteps self.now.ring.made_with self.now.trail }
    {
        self.port.knows_its_steps();
    }

    pub(crate) fn look(&mut self, ring: &Ring) -> Control
        requires { self.old.ring ≡ ring.now }
        ensures trail { record self.new { history = [] }
            ≡ record self.old { trail = Look result ∷ self.old.trail; history = [] } }
        ensures control { IsControl self.old.ring.made_with.geometry result }
        ensures history { GrewBy Consumer (Look result) self.old.history self.new.history }
        ensures current { result
            ≡ control_of self.old.ring.made_with.geometry (world self.new.history) }
    {
        self.port.look(ring)
    }

    /// A witness of the limits of its ring. It does nothing.
    pub(crate) fn is_within_limits(&self)
        ensures { IsWithinLimits self.now.ring.made_with }
    {
        self.port.knows_its_steps();
    }

    /// A witness that each CMD_SYNC that it took is the closing one of a sender. It does nothing.
    pub(crate) fn syncs_are_closing(&self)
        ensures { AreClosingSyncs (raws_by self.now.trail) }
    {
        counts_law();
        self.port.knows_its_steps();
    }

    pub(crate) fn taken(&self) -> u64
        ensures value { result ≡ taken_by self.now.trail }
        ensures few { result ≤ most_reserved }
    {
        self.port.knows_its_steps();
        self.taken
    }

    /// A witness that all that is reserved is taken if a look finds prod and cons equal. It does nothing.
    pub(crate) fn ends_tell_all(&self)
        ensures { EndsTellAll self.now.ring.made_with.geometry (world self.now.history) }
    {
        self.port.looks_tell();
    }

    /// A witness that the run that it knows is one of its ring's. It does nothing.
    pub(crate) fn knows_a_run(&self)
        ensures { IsHistory self.now.ring.made_with self.now.who self.now.trail self.now.history }
    {
        self.port.trail_stands_in_a_run();
    }

    pub(crate) fn test(&mut self, ring: &Ring, limit: u32) -> u32
        requires ring { self.old.ring ≡ ring.now }
        requires some { 1 ≤ limit }
        requires most { limit ≤ 64 }
        ensures trail { record self.new { history = [] }
            ≡ record self.old { trail = Test limit result ∷ self.old.trail; history = [] } }
        ensures history { GrewBy Consumer (Test limit result) self.old.history self.new.history }
        ensures unturned { result ≡ 0
            → (world self.new.history).flipped (head (world self.new.history)) ≡ false }
        ensures limit { result ≤ limit }
        ensures within { result ≤ size self.old.ring.made_with.geometry }
    {
        let found = self.port.test::<Brand>(ring, self.head, limit);
        self.port.trail_stands_in_a_run();
        found
    }

    fn read(&mut self, ring: &Ring, offset: u32, half: Half) -> u64
        requires ring { self.old.ring ≡ ring.now }
        requires ready { offset < found_ready self.old.trail }
        requires fits { offset ≤ size self.old.ring.made_with.geometry }
        ensures trail { record self.new { history = [] }
            ≡ record self.old { trail = Read offset half result ∷ self.old.trail; history = [] } }
        ensures history { GrewBy Consumer (Read offset half result) self.old.history
            self.new.history }
    {
        self.port
            .read::<Brand>(ring, self.head.forward(offset), offset, half)
    }

    /// Reads the first `count` commands.
    pub(crate) fn read_run(&mut self, ring: &Ring, count: u32, commands: &mut Commands)
        requires ring { self.old.ring ≡ ring.now }
        requires ready { count ≡ found_ready self.old.trail }
        requires some { 1 ≤ count }
        requires most { count ≤ 64 }
        requires fits { count ≤ size self.old.ring.made_with.geometry }
        ensures trail { record self.new { history = [] }
            ≡ record self.old { trail = reads_from 0 commands.new self.old.trail; history = [] } }
        ensures count { length commands.new ≡ count }
        ensures read { HasReadRun self.new.trail commands.new }
        ensures history { Grew Consumer self.old.trail self.new.trail self.old.history
            self.new.history }
    {
        commands.clear();
        for offset in 0..count {
            let lo = self.read(ring, offset, Half::Lo);
            let hi = self.read(ring, offset, Half::Hi);
            commands.push(Raw { lo, hi });
        }
    }

    /// Takes the first `count` of these commands, and then acknowledges each CMD_SYNC among them.
    pub(crate) fn complete_run(self, ring: &Ring, commands: &Commands, count: u32) -> ConsumerPort
        requires ring { self.ring ≡ ring.now }
        requires count { count ≤ length commands.now }
        requires few { count ≤ size self.ring.made_with.geometry }
        requires may { MayAdvance self.trail (take count commands.now) }
        requires current { IsCurrent self.trail }
        ensures current { IsCurrent result.trail }
        ensures trail { record result { history = [] }
            ≡ record self {
              trail = completed_trail (take count commands.now) self.trail;
              history =
                  [];
            } }
        ensures history { Grew Consumer self.trail result.trail self.history result.history }
    {
        let mut port = self;
        port.advance(ring, commands, count);
        port.port.acknowledge_run(ring, commands, count);
        port
    }

    /// Takes the first `count` of these commands, and acknowledges none.
    pub(crate) fn advance(&mut self, ring: &Ring, commands: &Commands, count: u32)
        requires ring { self.old.ring ≡ ring.now }
        requires count { count ≤ length commands.now }
        requires few { count ≤ size self.old.ring.made_with.geometry }
        requires may { MayAdvance self.old.trail (take count commands.now) }
        ensures trail { record self.new { history = [] } ≡ record self.old
            { trail = Advance (take count commands.now) ∷ self.old.trail; history = [] } }
        ensures history { GrewBy Consumer (Advance (take count commands.now)) self.old.history
            self.new.history }
    {
        self.port.advance::<Brand>(ring, self.head, commands, count);
        self.port.knows_its_steps();
        let further = self.head.forward(count);
        self.head = further;
        self.taken += u64::from(count);
    }

    /// Acknowledges a command that is due if it is a CMD_SYNC.
    pub(crate) fn acknowledge(&mut self, ring: &Ring, raw: Raw)
        requires ring { self.old.ring ≡ ring.now }
        requires due { is_sync raw ≡ true → IsDue ring.now.made_with.senders self.old.trail raw }
        ensures trail { record self.new { history = [] } ≡ record self.old
            { trail = acknowledged raw self.old.trail; history = [] } }
        ensures history { Grew Consumer self.old.trail self.new.trail self.old.history
            self.new.history }
    {
        if raw.is_sync() {
            self.port.acknowledge_sync(ring, raw);
        }
    }

    /// Returns its seat.
    pub(crate) fn into_seat(self) -> Seat<(), Participants>
        ensures { SitsFor result.table_id result.me self.ring Consumer self.trail self.history }
    {
        let ConsumerPort {
            port,
            head: _,
            taken: _,
        } = self;
        port.into_seat()
    }
}
