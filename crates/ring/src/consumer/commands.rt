//! Room for commands.
ghost use Rattle.std.specs.Prelude.{◌≡◌, ◌<◌, ◌≤◌, ◌++◌, ◌∷◌, [], ℕ, List, length, slice_get, IfOk};
ghost use Rattle.ring.specs.Runs.{Raw as RawOf};

use cmdcodec::{Raw, RawList};
use std::alloc::{AllocError, Global};
use std::marker::Model;

/// The commands of a run, up to 64. Their memory is taken once, when the ring is made, so that they never
/// move.
#[derive(Drop)]
pub struct Commands {
    list: Box<RawList>,
}

impl Model for Commands {
    ghost Value = { List RawOf };

    ghost view = { λ c. c.list.value.items };
}

impl Commands {
    pub(crate) fn new(alloc: Global) -> Result<Commands, AllocError>
        ensures { IfOk result (λ c. c ≡ []) }
    {
        Ok(Commands {
            list: Box::new(alloc, RawList::new())?,
        })
    }

    pub(crate) fn clear(&mut self)
        ensures { self.new ≡ [] }
    {
        self.list.clear();
    }

    pub(crate) fn push(&mut self, raw: Raw)
        requires { length self.old < 64 }
        ensures { self.new ≡ self.old ++ raw ∷ [] }
    {
        self.list.push(raw);
    }

    pub(crate) fn len(&self) -> u32
        ensures value { result ≡ length self.now }
        ensures few { result ≤ 64 }
    {
        self.list.len() as u32
    }

    pub(crate) fn get(&self, place: u32) -> Option<Raw>
        ensures { result ≡ slice_get self.now place }
    {
        self.list.get(place as usize).copied()
    }
}
