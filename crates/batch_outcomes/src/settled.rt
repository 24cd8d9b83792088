//! What was settled.
ghost use Rattle.std.specs.Prelude.{◌≡◌, ◌∷◌, []};

use std::marker::Model;
use std::mem;
use std::snapshot::Snapshot;

/// A command that was settled.
#[derive(Clone, Copy, Debug, PartialEq, Eq, Drop)]
pub enum Settled {
    /// A command of a batch's body, and whether it was carried out.
    Command(bool),
    /// The CMD_SYNC that closes a sender's batch with this number.
    Sync(u32, u32),
}

/// Commands that were settled, of which only clauses see the earlier ones.
#[derive(Drop)]
pub enum Log {
    Nothing,
    Next(Settled, Snapshot<Log>),
}

/// A list of them, the newest first, that only clauses see: it has no bytes.
#[derive(Drop)]
pub struct Tape {
    log: Snapshot<Log>,
}

impl Model for Tape {
    ghost use Rattle.std.specs.Prelude.{List};
    ghost use Rattle.batch_outcomes.specs.declared.settled.Settled.{Settled as SettledOf};
    ghost use Rattle.batch_outcomes.specs.Settled.{settled_in};

    ghost Value = { List SettledOf };

    ghost view = { λ t. settled_in t.log.value };
}

impl Tape {
    pub(crate) fn new() -> Tape
        ensures { result ≡ [] }
    {
        Tape {
            log: Snapshot::of(&Log::Nothing),
        }
    }

    pub(crate) fn add(&mut self, settled: Settled)
        ensures { self.new ≡ settled ∷ self.old }
    {
        let earlier = mem::replace(&mut self.log, Snapshot::of(&Log::Nothing));
        self.log = Snapshot::of(&Log::Next(settled, earlier));
    }
}
