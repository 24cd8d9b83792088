//! Which batches lost commands.
ghost use Rattle.std.specs.Prelude.{◌≡◌, ◌∷◌, ◌<◌, suc, [], IfOk};
ghost use Rattle.batch_outcomes.specs.declared.settled.Settled.TheVariants.{Command, Sync};
ghost use Rattle.batch_outcomes.specs.Settled.{last_of, AreNumbered};
ghost use Rattle.batch_outcomes.specs.Outcomes.{IsOutcome, lost_then};

use crate::batch_outcome::BatchOutcome;
use crate::settled::{Settled, Tape};
use crate::told::Told;
use std::alloc::{AllocError, Global};
use std::marker::Model;

/// Remembers of each sender which of its last batches lost commands.
#[derive(Drop)]
pub struct Outcomes {
    /// How many commands were lost behind the newest CMD_SYNC.
    lost: u32,
    told: Vec<Told>,
    settled: Tape,
}

impl Model for Outcomes {
    ghost use Rattle.std.specs.Prelude.{length};
    ghost use Rattle.batch_outcomes.specs.Outcomes.{OutcomesValue, IsRemembered};

    ghost Value = { OutcomesValue };

    ghost view = { λ o. record { settled = o.settled; senders = length o.told.items } };

    ghost invariant = { λ o. IsRemembered o.settled o.told.items o.lost };
}

impl Outcomes {
    /// Nothing is settled yet. Takes 16 bytes for each sender, and no call takes more.
    pub fn new(alloc: Global, senders: u32) -> Result<Outcomes, AllocError>
        ensures { IfOk result (λ o. o ≡ record { settled = []; senders = senders }) }
    {
        let none = Told {
            last: 0,
            losing: 0,
            count: 0,
            earlier: 0,
        };
        Ok(Outcomes {
            lost: 0,
            told: vec![in alloc; none; senders as usize]?,
            settled: Tape::new(),
        })
    }

    /// One more command of a batch's body is settled.
    pub fn settle(&mut self, carried_out: bool)
        ensures { self.new ≡ record self.old { settled = Command carried_out ∷ self.old.settled } }
    {
        let lost = count_lost(self.lost, carried_out);
        self.lost = lost;
        self.settled.add(Settled::Command(carried_out));
    }

    /// The CMD_SYNC of a sender's next batch is settled.
    pub fn close(&mut self, sender: u32, number: u32)
        requires known { sender < self.old.senders }
        requires next { number ≡ suc (last_of sender self.old.settled) }
        ensures { self.new ≡ record self.old { settled = Sync sender number ∷ self.old.settled } }
    {
        let told = &mut self.told[sender as usize];
        *told = told.then(number, self.lost);
        self.lost = 0;
        self.settled.add(Settled::Sync(sender, number));
    }

    /// Returns how many senders there are.
    pub fn senders(&self) -> usize
        ensures { result ≡ self.now.senders }
    {
        self.told.len()
    }

    /// A witness that the CMD_SYNCs of each sender are numbered. It does nothing.
    pub fn are_numbered(&self)
        ensures { AreNumbered self.now.settled }
    {
        let _ = &self.lost;
    }

    /// Returns what became of the commands between a sender's CMD_SYNC with this number and the CMD_SYNC ahead of it.
    pub fn outcome(&self, sender: u32, number: u32) -> BatchOutcome
        requires known { sender < self.now.senders }
        ensures { IsOutcome self.now.settled sender number result }
    {
        let told = self.told[sender as usize];
        if number == 0 || number > told.last {
            return BatchOutcome::NotYet;
        }
        if number == told.losing {
            return BatchOutcome::Lost(told.count);
        }
        if number <= told.earlier {
            return BatchOutcome::Unknown;
        }
        BatchOutcome::Complete
    }
}

/// Returns how many are lost with one more command.
fn count_lost(lost: u32, carried_out: bool) -> u32
    ensures { result ≡ lost_then lost carried_out }
{
    if carried_out {
        lost
    } else {
        lost.saturating_add(1)
    }
}
