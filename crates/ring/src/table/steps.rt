//! What each step tells: the event that it added. These types exist only in proofs.
ghost use Rattle.ring.specs.table.Intents.{Intent, looks, closes, asks};
ghost use Rattle.ring.specs.table.StepEvents.{adds_for};

use crate::table::rule::Participants;
use atomic_table::{Join, Play, Split};
use std::marker::{Brand, PhantomData};

/// What a step is for. A call at `Brand` picks it from its arguments.
pub trait HasIntent {
    ghost intent: { Intent };
}

impl HasIntent for Brand {
    ghost intent = { looks };
}

/// A look.
pub struct Looks;

impl HasIntent for Looks {
    ghost intent = { looks };
}

/// A close.
pub struct Closes;

impl HasIntent for Closes {
    ghost intent = { closes };
}

/// An ask.
pub struct Asks;

impl HasIntent for Asks {
    ghost intent = { asks };
}

/// A step with this intent.
pub struct StepFor<I: HasIntent> {
    intent: PhantomData<I>,
}

impl<I: HasIntent> Play<(), Participants> for StepFor<I> {
    ghost then = { adds_for I.intent };
}

/// A load by which all participants of a seat learn the run as it is then. It adds no event.
pub struct Meets;

impl Play<(), Participants> for Meets {
    ghost use Rattle.ring.specs.table.Meetings.{has_met};

    ghost then = { has_met };
}

/// Such a load, which also tells the word that it found.
pub struct Finds;

impl Play<(), Participants> for Finds {
    ghost use Rattle.ring.specs.table.Meetings.{has_found};

    ghost then = { has_found };
}

/// The first participant of a seat gets its own seat.
pub struct Deals;

impl Split<Participants> for Deals {
    ghost use Rattle.ring.specs.table.StepEvents.{without_first, first_alone};

    ghost left = { without_first };

    ghost right = { first_alone };
}

/// A seat takes in all participants of another.
pub struct Gathers;

impl Join<Participants> for Gathers {
    ghost use Rattle.std.specs.Prelude.{[]};
    ghost use Rattle.ring.specs.table.StepEvents.{both_of};

    ghost both = { both_of };

    ghost spent = { [] };
}

/// Whom a seat is lent to. A call at `Brand` picks it from its arguments.
pub trait HasWho {
    ghost use Rattle.ring.specs.Runs.{Who};

    ghost who: { Who };
}

impl HasWho for Brand {
    ghost use Rattle.ring.specs.Runs.{Consumer};

    ghost who = { Consumer };
}

/// One of several participants who know the same run gets its own seat.
pub struct Lends<W: HasWho> {
    who: PhantomData<W>,
}

impl<W: HasWho> Split<Participants> for Lends<W> {
    ghost use Rattle.ring.specs.table.Keeping.{without, own_part};

    ghost left = { without W.who };

    ghost right = { own_part W.who };
}
