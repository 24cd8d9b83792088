//! What is remembered of one sender.
ghost use Rattle.std.specs.Prelude.{◌≡◌};
ghost use Rattle.batch_outcomes.specs.Outcomes.{told_then};

/// What is remembered of one sender. Batches are named by their numbers, from 1.
#[derive(Clone, Copy, Debug, PartialEq, Eq, Drop)]
pub struct Told {
    /// The last batch that is settled, 0 if none is.
    pub last: u32,
    /// The last that lost a command, 0 if none did.
    pub losing: u32,
    /// How many it lost.
    pub count: u32,
    /// The one before that, 0 if there was none.
    pub earlier: u32,
}

impl Told {
    /// One more batch is settled, which lost so many commands.
    pub(crate) fn then(self, number: u32, lost: u32) -> Told
        ensures { result ≡ told_then self number lost }
    {
        if lost > 0 {
            Told {
                last: number,
                losing: number,
                count: lost,
                earlier: self.losing,
            }
        } else {
            Told {
                last: number,
                ..self
            }
        }
    }
}
