//! What a seat knows, and the rule of the table.
ghost use Rattle.ring.specs.table.Histories.{GrowthAddsUp, OneStepIsLast, NoStepIsNone};
ghost use Rattle.ring.specs.table.OneRun.{IsOneRun, WordsAreTheRuns, WordsAreOne};

use atomic_table::TableRule;
use qindex::Geometry;
use ringcore::{Event, Who};
use std::collections::LinkedList;
use std::marker::Model;

/// The parameters that a ring is made with.
#[derive(Clone, Copy)]
pub struct Parameters {
    pub(crate) geometry: Geometry,
    /// How many senders it has, 1 to 256.
    pub(crate) senders: u32,
    /// How many batches each of them may reserve.
    pub(crate) max_batches: u32,
}

impl Model for Parameters {
    ghost use Rattle.ring.specs.Runs.{Ring};

    ghost Value = { Ring };

    ghost view = { λ p. record { geometry = p.geometry; senders = p.senders; max_batches = p.max_batches; flags = 64 } };

    ghost inverse = { λ r. record { geometry = r.geometry; senders = r.senders; max_batches = r.max_batches } };
}

/// One who takes steps, with all of its steps. It exists only in proofs.
pub struct Participant {
    pub(crate) ring: Parameters,
    pub(crate) who: Who,
    pub(crate) trail: LinkedList<Event>,
    /// The run up to its newest step, as it was then.
    pub(crate) history: LinkedList<(Who, Event)>,
}

/// The participants of a seat.
pub type Participants = LinkedList<Participant>;

/// The rule of a ring's table.
pub struct RingRule;

impl TableRule<(), Participants, Parameters> for RingRule {
    ghost use Rattle.ring.specs.table.Rule.{RuleHolds, first_participants};

    ghost holds = { λ ring. RuleHolds ring };

    ghost first = { λ ring. first_participants ring };
}

/// A witness that the rule speaks of one run, which grows only at its end, by the event of the seat that
/// steps. The words are what the operations of its events made of zeros, and no other list is: a step stores
/// only what its event says. It does nothing.
pub fn run_is_one()
    ensures one { IsOneRun }
    ensures words { WordsAreTheRuns }
    ensures one_list { WordsAreOne }
{}

/// A witness that what a participant knows of the run grows call by call: over several calls by the steps of
/// all of them, over one step by that step, which comes last, and over none not at all. It does nothing.
pub fn growth_adds_up()
    ensures sum { GrowthAddsUp }
    ensures one { OneStepIsLast }
    ensures none { NoStepIsNone }
{}
