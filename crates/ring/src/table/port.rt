//! A seat of a single participant, and the atomic steps that it may take.
ghost use Rattle.std.specs.Prelude.{◌≡◌, ◌∷◌, ◌<◌, ◌≤◌, ◌^◌, ℕ, false, Some, slice_get, []};
ghost use Rattle.qindex.specs.Positions.{size, index_of};
ghost use Rattle.qindex.specs.ControlWord.{IsControl};
ghost use Rattle.ring.specs.Runs.{Sender, Look, Write, Flip, Close, Ask, half_of, world, control as control_of, MayTry, MayWrite, ShareAWord, length_with, same};
ghost use Rattle.ringcore.specs.memory.StepLaws.{reserved_commands};
ghost use Rattle.ring.specs.table.Intents.{reserves, writes, flips};
ghost use Rattle.ring.specs.table.Rule.{StandsInARun, WentOn};
ghost use Rattle.ring.specs.table.Histories.{IsHistory, GrewBy, EndsTellAll};
ghost use Rattle.ring.specs.sender.Reserving.{TellsRoom};
ghost use Rattle.ring.specs.table.Ports.{PortValue, SitsFor, IsWonOrLost, IsSlotAt, MayFlipAt};

use crate::ring::Ring;
use crate::table::rule::Participants;
use crate::table::steps::{Asks, Closes, Deals, Finds, Gathers, HasIntent, Looks, StepFor};
use atomic_table::Seat;
use batch::BorrowedBatch;
use cmdcodec::Raw;
use qindex::{Control, Index, close_mask, indexes_tell_the_queue};
use ringcore::{
    Half, cell, control_word, counts_law, data_word, flag_word, flip_mask, laws, world_law,
};
use std::marker::Model;

/// A seat of a single participant.
#[derive(Drop)]
pub struct Port {
    pub(crate) seat: Seat<(), Participants>,
}

impl Model for Port {
    ghost use Rattle.ring.specs.table.Rule.{who_of, IsAlone};
    ghost use Rattle.ring.specs.table.Ports.{PortValue, port_of};

    ghost Value = { PortValue };

    ghost view = { λ p. port_of p.seat.table_id p.seat.me };

    ghost invariant = { λ p. IsAlone p.seat.me (who_of p.seat.me.0) };
}

impl Port {
    /// A witness that its trail stands in some run of the ring. It does nothing.
    pub(crate) fn trail_stands_in_a_run(&self)
        ensures trail { StandsInARun self.now.ring.made_with self.now.who self.now.trail }
        ensures history { IsHistory self.now.ring.made_with self.now.who self.now.trail
            self.now.history }
    {
        let _ = &self.seat;
    }

    /// A witness that there is too little room if a look finds too little, and that all that is reserved is
    /// taken if it finds prod and cons equal. It does nothing.
    pub(crate) fn looks_tell(&self)
        ensures room { TellsRoom self.now.ring.made_with.geometry (world self.now.history) }
        ensures ends { EndsTellAll self.now.ring.made_with.geometry (world self.now.history) }
    {
        world_law();
        indexes_tell_the_queue();
        self.trail_stands_in_a_run();
    }

    /// Returns the seat itself.
    pub(crate) fn into_seat(self) -> Seat<(), Participants>
        ensures { SitsFor result.table_id result.me self.ring self.who self.trail self.history }
    {
        let Port { seat } = self;
        seat
    }

    /// Joins both seats for a load and splits them again: both know the run as it is then. It adds no event. Returns
    /// the control word that the load found.
    pub(crate) fn meet(&mut self, ring: &Ring, other: &mut Port) -> Control
        requires ring { self.old.ring ≡ ring.now }
        requires other { other.old.ring ≡ ring.now }
        requires apart { same self.old.who other.old.who ≡ false }
        ensures mine { record self.new { history = [] } ≡ record self.old { history = [] } }
        ensures theirs { record other.new { history = [] } ≡ record other.old { history = [] } }
        ensures one { other.new.history ≡ self.new.history }
        ensures i_knew { WentOn self.old.who self.old.history self.new.history }
        ensures they_knew { WentOn other.old.who other.old.history self.new.history }
        ensures control { IsControl self.old.ring.made_with.geometry result }
        ensures current { result
            ≡ control_of self.old.ring.made_with.geometry (world self.new.history) }
    {
        laws::look();
        let words = &ring.table.shared;
        let one = words.split_seat::<Deals>(&mut other.seat);
        words.join_seat::<Gathers>(&mut self.seat, one);
        let found = words.load::<Finds>(&mut self.seat, control_word());
        other.seat = words.split_seat::<Deals>(&mut self.seat);
        Control::unpack(ring.geometry(), found).unwrap()
    }

    /// A load of the control word.
    pub(crate) fn look(&mut self, ring: &Ring) -> Control
        requires { self.old.ring ≡ ring.now }
        ensures trail { record self.new { history = [] }
            ≡ record self.old { trail = Look result ∷ self.old.trail; history = [] } }
        ensures control { IsControl self.old.ring.made_with.geometry result }
        ensures history { GrewBy self.old.who (Look result) self.old.history self.new.history }
        ensures current { result
            ≡ control_of self.old.ring.made_with.geometry (world self.new.history) }
    {
        laws::look();
        let words = &ring.table.shared;
        let word = words.load::<StepFor<Looks>>(&mut self.seat, control_word());
        Control::unpack(ring.geometry(), word).unwrap()
    }

    /// An or of the control word with the closed bit.
    pub(crate) fn close(&mut self, ring: &Ring, sender: u32)
        requires ring { self.old.ring ≡ ring.now }
        requires who { self.old.who ≡ Sender sender }
        ensures trail { record self.new { history = [] }
            ≡ record self.old { trail = Close ∷ self.old.trail; history = [] } }
        ensures history { GrewBy self.old.who Close self.old.history self.new.history }
    {
        laws::close();
        let words = &ring.table.shared;
        words.fetch_or::<StepFor<Closes>>(&mut self.seat, control_word(), close_mask());
    }

    /// An exchange of the control word that was looked at, to reserve a batch of `many` commands. Returns
    /// whether it was won.
    pub(crate) fn exchange<I: HasIntent>(
        &mut self,
        ring: &Ring,
        sender: u32,
        batch: &BorrowedBatch<'_>,
        closes: bool,
        many: u32,
        seen: &Control,
    ) -> bool
        requires ring { self.old.ring ≡ ring.now }
        requires who { self.old.who ≡ Sender sender }
        requires many { many ≡ length_with closes batch.now }
        requires may { MayTry self.old.ring.made_with self.old.trail batch.now many seen.now }
        requires control { IsControl self.old.ring.made_with.geometry seen.now }
        requires intent { I.intent ≡ reserves batch.now closes }
        ensures { IsWonOrLost batch.now closes seen.now self.old self.new result }
    {
        laws::reserve_won();
        laws::reserve_lost();
        let after = Control {
            prod: seen.prod.forward(many),
            cons: seen.cons,
            closed: seen.closed,
        };
        let words = &ring.table.shared;
        let before = seen.pack();
        let found = words.compare_exchange::<StepFor<I>>(
            &mut self.seat,
            control_word(),
            before,
            after.pack(),
        );
        found == before
    }

    /// A store of half a command of the open reservation in the slot with this index.
    pub(crate) fn write<I: HasIntent>(
        &mut self,
        ring: &Ring,
        sender: u32,
        slot: Index,
        offset: u32,
        half: Half,
        raw: Raw,
    )
        requires ring { self.old.ring ≡ ring.now }
        requires who { self.old.who ≡ Sender sender }
        requires may { MayWrite self.old.trail offset }
        requires raw { slice_get (reserved_commands sender self.old.trail) offset ≡ Some raw }
        requires geometry { slot.geometry ≡ self.old.ring.made_with.geometry }
        requires slot { IsSlotAt self.old slot offset }
        requires intent { I.intent ≡ writes offset half }
        ensures trail { record self.new { history = [] }
            ≡ record self.old { trail = Write offset half ∷ self.old.trail; history = [] } }
        ensures history { GrewBy self.old.who (Write offset half) self.old.history
            self.new.history }
    {
        laws::write();
        laws::start();
        let word = half_word(half, raw);
        let words = &ring.table.shared;
        words.store::<StepFor<I>>(&mut self.seat, data_word(slot, half), word);
    }

    /// An exclusive or of a flag word with the flags of `count` slots from this index on.
    pub(crate) fn flip<I: HasIntent>(
        &mut self,
        ring: &Ring,
        sender: u32,
        slot: Index,
        offset: u32,
        count: u32,
    )
        requires ring { self.old.ring ≡ ring.now }
        requires who { self.old.who ≡ Sender sender }
        requires geometry { slot.geometry ≡ self.old.ring.made_with.geometry }
        requires slot { IsSlotAt self.old slot offset }
        requires may { MayFlipAt self.old.trail offset count }
        requires within { count ≤ size slot.geometry }
        requires share { ShareAWord 64 slot.geometry slot.number count }
        requires share_at_position { (geometry position : ℕ) → slot ≡ index_of geometry position
            → ShareAWord 64 geometry position count }
        requires intent { I.intent ≡ flips offset count }
        ensures trail { record self.new { history = [] }
            ≡ record self.old { trail = Flip offset count ∷ self.old.trail; history = [] } }
        ensures history { GrewBy self.old.who (Flip offset count) self.old.history
            self.new.history }
    {
        laws::flip();
        laws::start();
        let words = &ring.table.shared;
        words.fetch_xor::<StepFor<I>>(&mut self.seat, flag_word(slot), flip_mask(slot, count));
    }

    /// A load of the sender's completion cell.
    pub(crate) fn ask(&mut self, ring: &Ring, sender: u32) -> u32
        requires ring { self.old.ring ≡ ring.now }
        requires who { self.old.who ≡ Sender sender }
        ensures trail { record self.new { history = [] }
            ≡ record self.old { trail = Ask result ∷ self.old.trail; history = [] } }
        ensures history { GrewBy self.old.who (Ask result) self.old.history self.new.history }
    {
        laws::ask();
        world_law();
        counts_law();
        let words = &ring.table.shared;
        let found = words.load::<StepFor<Asks>>(&mut self.seat, cell(ring.geometry(), sender));
        found as u32
    }
}

fn half_word(half: Half, raw: Raw) -> u64
    ensures { result ≡ half_of half raw }
{
    match half {
        Half::Lo => raw.lo,
        Half::Hi => raw.hi,
    }
}
