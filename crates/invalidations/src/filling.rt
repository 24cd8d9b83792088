//! Batches of the commands of an invalidation.
ghost use Rattle.invalidations.specs.Filling.{IsFilled, HasNoSync};

use crate::commands::Commands;
use arrayvec::ArrayVec;
use cmdcodec::{MOST_BODY_COMMANDS, Raw};

/// Room for the commands of a batch.
pub type Body = ArrayVec<Raw, MOST_BODY_COMMANDS>;

impl Commands {
    /// Appends the words of the next commands, as many as there is room for.
    pub fn fill(&mut self, body: &mut Body)
        ensures filled { IsFilled self.old self.new body.old.items body.new.items }
        ensures no_sync { HasNoSync body.old.items → HasNoSync body.new.items }
    {
        'commands: while !body.is_full() {
            match self.next_words() {
                None => return,
                Some(raw) => body.push(raw),
            }
        }
    }
}
