//! The numbers that a ring and its caches are made with.
ghost use Rattle.std.specs.Prelude.{◌≡◌};
ghost use Rattle.simulator.specs.{shape_label};

use ringcore::RingFault;
use thiserror::Error;

/// The numbers that a ring and its caches are made with.
#[derive(Clone, Copy, Debug, PartialEq, Eq)]
pub struct Shape {
    /// The ring has `2^log2` slots, 1 to 19.
    pub log2: u32,
    /// How many senders it has, 1 to 256.
    pub senders: u32,
    /// How many batches each sender may reserve, at least 1.
    pub max_batches: u32,
    /// How many entries the caches hold at most, 1 to 65,536.
    pub capacity: u32,
}

/// Why nothing is made: the first that applies of N1, N2, N3 and C4, or else N4.
#[derive(Clone, Copy, Debug, PartialEq, Eq, Error)]
pub enum ShapeFault {
    /// N1 to N4: no ring is made.
    #[error(transparent)]
    Ring(RingFault),
    /// C4: the capacity isn't 1 to 65,536.
    #[error("C4: the capacity isn't 1 to 65,536")]
    Capacity,
}

impl ShapeFault {
    /// Returns its label, `N1` to `N4` or `C4`.
    pub fn label(self) -> &'static str
        ensures { result.now ≡ shape_label self }
    {
        match self {
            ShapeFault::Ring(fault) => fault.label(),
            ShapeFault::Capacity => "C4",
        }
    }
}
