//! The atomic steps of the consumer.
ghost use Rattle.std.specs.Prelude.{◌≡◌, ◌∷◌, ◌+◌, ◌<◌, ◌≤◌, ℕ, suc, length, take, []};
ghost use Rattle.cmdcodec.specs.Opcodes.{is_sync};
ghost use Rattle.qindex.specs.Positions.{size, index_of};
ghost use Rattle.ring.specs.Runs.{Consumer, Test, Read, Advance, Acknowledge, taken_by, acknowledged_by, found_ready, MayAdvance, syncs_taken};
ghost use Rattle.ringcore.specs.memory.Flags.{ready_in};
ghost use Rattle.ringcore.specs.Limits.{most_senders};
ghost use Rattle.ringcore.specs.memory.Layout.{cell};
ghost use Rattle.ring.specs.table.Intents.{tests, reads, advances, acknowledges};
ghost use Rattle.ring.specs.table.Rule.{IsWithinLimits};
ghost use Rattle.ring.specs.table.Histories.{GrewBy, Grew};
ghost use Rattle.ring.specs.consumer.Consumers.{KnowsItsSteps, IsCurrent};
ghost use Rattle.ring.specs.consumer.Completing.{all_acknowledged, HasAdvanced, sync_sender, sync_number, IsClosingSync, IsDue};

use crate::consumer::Commands;
use crate::ring::Ring;
use crate::table::port::Port;
use crate::table::steps::{HasIntent, StepFor};
use cmdcodec::{Raw, cell_owner};
use qindex::{Index, advance_mask};
use ringcore::{Half, cell, control_word, counts_law, data_word, flag_word, laws, ready_run};
use std::marker::Brand;

impl Port {
    /// A witness of what the consumer knows of its own steps, by the laws of every run, so that no count of
    /// what it took wraps. It does nothing.
    pub(crate) fn knows_its_steps(&self)
        ensures steps { self.now.who ≡ Consumer
            → KnowsItsSteps self.now.ring.made_with self.now.trail }
        ensures limits { IsWithinLimits self.now.ring.made_with }
    {
        counts_law();
        laws::consumer_trail();
        let _ = &self.seat;
    }

    /// A load of the head's flag word. Returns how many commands in a row from the head on are ready, at most
    /// `limit`.
    pub(crate) fn test<I: HasIntent>(&mut self, ring: &Ring, head: Index, limit: u32) -> u32
        requires ring { self.old.ring ≡ ring.now }
        requires who { self.old.who ≡ Consumer }
        requires head { head ≡ index_of self.old.ring.made_with.geometry (taken_by self.old.trail) }
        requires some { 1 ≤ limit }
        requires most { limit ≤ 64 }
        requires intent { I.intent ≡ tests limit }
        ensures trail { record self.new { history = [] }
            ≡ record self.old { trail = Test limit result ∷ self.old.trail; history = [] } }
        ensures history { GrewBy Consumer (Test limit result) self.old.history self.new.history }
        ensures limit { result ≤ limit }
        ensures within { result ≤ size head.geometry }
    {
        laws::ready_runs();
        laws::consumer_trail();
        let words = &ring.table.shared;
        let word = words.load::<StepFor<I>>(&mut self.seat, flag_word(head));
        ready_run(word, head, limit)
    }

    /// A load of a data word: half of the command at this offset from the head.
    pub(crate) fn read<I: HasIntent>(
        &mut self,
        ring: &Ring,
        slot: Index,
        offset: u32,
        half: Half,
    ) -> u64
        requires ring { self.old.ring ≡ ring.now }
        requires who { self.old.who ≡ Consumer }
        requires slot { slot
            ≡ index_of self.old.ring.made_with.geometry (taken_by self.old.trail + offset) }
        requires ready { offset < found_ready self.old.trail }
        requires intent { I.intent ≡ reads offset half }
        ensures trail { record self.new { history = [] }
            ≡ record self.old { trail = Read offset half result ∷ self.old.trail; history = [] } }
        ensures history { GrewBy Consumer (Read offset half result) self.old.history
            self.new.history }
    {
        laws::read();
        laws::consumer_trail();
        let words = &ring.table.shared;
        words.load::<StepFor<I>>(&mut self.seat, data_word(slot, half))
    }

    /// An exclusive or of the control word that advances past the first `count` of these commands.
    pub(crate) fn advance<I: HasIntent>(
        &mut self,
        ring: &Ring,
        head: Index,
        commands: &Commands,
        count: u32,
    )
        requires ring { self.old.ring ≡ ring.now }
        requires who { self.old.who ≡ Consumer }
        requires head { head ≡ index_of self.old.ring.made_with.geometry (taken_by self.old.trail) }
        requires may { MayAdvance self.old.trail (take count commands.now) }
        requires count { count ≤ length commands.now }
        requires few { count ≤ size head.geometry }
        requires intent { I.intent ≡ advances (take count commands.now) }
        ensures trail { record self.new { history = [] }
            ≡ record self.old {
              trail = Advance (take count commands.now)
                  ∷ self.old.trail;
              history = [];
            } }
        ensures history { GrewBy Consumer (Advance (take count commands.now)) self.old.history
            self.new.history }
    {
        laws::advance();
        laws::consumer_trail();
        let _ = &commands;
        let words = &ring.table.shared;
        let mask = advance_mask(head, head.forward(count));
        words.fetch_xor::<StepFor<I>>(&mut self.seat, control_word(), mask);
    }

    /// A store of a sender's next number in its completion cell.
    fn acknowledge<I: HasIntent>(&mut self, ring: &Ring, sender: u32, number: u32)
        requires ring { self.old.ring ≡ ring.now }
        requires who { self.old.who ≡ Consumer }
        requires known { sender < ring.now.made_with.senders }
        requires next { number ≡ suc (acknowledged_by sender self.old.trail) }
        requires taken { number ≤ syncs_taken sender self.old.trail }
        requires intent { I.intent ≡ acknowledges sender number }
        ensures trail { record self.new { history = [] }
            ≡ record self.old { trail = Acknowledge sender number ∷ self.old.trail; history = [] } }
        ensures history { GrewBy Consumer (Acknowledge sender number) self.old.history
            self.new.history }
    {
        laws::acknowledge();
        laws::consumer_trail();
        counts_law();
        let words = &ring.table.shared;
        words.store::<StepFor<I>>(&mut self.seat, cell_of(ring, sender), u64::from(number));
    }

    /// Acknowledges each CMD_SYNC among the first `count` of these commands, past which it has just advanced.
    pub(crate) fn acknowledge_run(&mut self, ring: &Ring, commands: &Commands, count: u32)
        requires ring { self.old.ring ≡ ring.now }
        requires who { self.old.who ≡ Consumer }
        requires count { count ≤ length commands.now }
        requires advanced { HasAdvanced self.old.trail (take count commands.now) }
        ensures trail { record self.new { history = [] }
            ≡ record self.old {
              trail = all_acknowledged (take count commands.now) self.old.trail;
              history = [];
            } }
        ensures current { IsCurrent self.new.trail }
        ensures history { Grew Consumer self.old.trail self.new.trail self.old.history
            self.new.history }
    {
        self.knows_its_steps();
        counts_law();
        laws::consumer_trail();
        for place in 0..count {
            let raw = commands.get(place).unwrap();
            if raw.is_sync() {
                self.acknowledge_sync(ring, raw);
            }
        }
    }

    /// Acknowledges a CMD_SYNC that is due.
    pub(crate) fn acknowledge_sync(&mut self, ring: &Ring, raw: Raw)
        requires ring { self.old.ring ≡ ring.now }
        requires who { self.old.who ≡ Consumer }
        requires due { IsDue ring.now.made_with.senders self.old.trail raw }
        ensures trail { record self.new { history = [] }
            ≡ record self.old {
              trail = Acknowledge (sync_sender raw) (sync_number raw)
                  ∷ self.old.trail;
              history = [];
            } }
        ensures history { GrewBy Consumer (Acknowledge (sync_sender raw) (sync_number raw))
            self.old.history self.new.history }
    {
        self.acknowledge::<Brand>(ring, closing_sender(raw), closing_number(raw));
    }
}

/// Returns the word that is a sender's completion cell.
///
/// A CMD_SYNC in the ring names one of its senders. If something else ever wrote to the ring's memory, this is still a
/// cell of the ring: the wrong one, but none outside.
fn cell_of(ring: &Ring, sender: u32) -> usize
    requires known { sender < ring.now.made_with.senders }
    requires few { sender ≤ most_senders }
    ensures { result ≡ cell ring.now.made_with.geometry sender }
{
    cell(ring.geometry(), sender.min(ring.senders() - 1))
}

/// Returns the sender of a closing CMD_SYNC, by the completion cell that it writes to.
fn closing_sender(raw: Raw) -> u32
    requires { IsClosingSync raw }
    ensures { result ≡ sync_sender raw }
{
    match cell_owner(raw.hi) {
        Some(owner) => owner as u32,
        None => 0,
    }
}

/// Returns the number of a closing CMD_SYNC: its MSIDATA.
fn closing_number(raw: Raw) -> u32
    ensures { result ≡ sync_number raw }
{
    (raw.lo / 0x1_0000_0000) as u32
}
