//! The number of slots of a ring.
ghost use Rattle.std.specs.Prelude.{◌≡◌, ◌≤◌, ◌*◌, ◌%◌, ◌^◌};
ghost use Rattle.std.specs.Option.{SomeIff};
ghost use Rattle.qindex.specs.Positions.{size};
ghost use Rattle.qindex.specs.Indexes.{IsGeometry};

use std::marker::Model;

/// The size of a ring, `2^log2` slots: SMMU_CMDQ_BASE.LOG2SIZE, 1 to 19.
#[derive(Clone, Copy, Debug, PartialEq, Eq)]
pub struct Geometry {
    log2: u32,
}

impl Model for Geometry {
    ghost use Rattle.std.specs.Prelude.{ℕ};
    ghost use Rattle.qindex.specs.Indexes.{IsGeometry};

    ghost Value = { ℕ };

    ghost view = { λ g. g.log2 };

    ghost invariant = { λ g. IsGeometry g.log2 };

    ghost inverse = { λ n. record { log2 = n } };
}

impl Geometry {
    /// Returns the geometry of `2^log2` slots if log2 is 1 to 19.
    pub fn new(log2: u32) -> Option<Geometry>
        ensures { SomeIff result (IsGeometry log2) log2 }
    {
        if 1 <= log2 && log2 <= 19 {
            Some(Geometry { log2 })
        } else {
            None
        }
    }

    /// Returns the binary logarithm of the number of slots, 1 to 19.
    pub fn log2(self) -> u32
        ensures value { result ≡ self }
        ensures in_range { IsGeometry result }
    {
        self.log2
    }

    /// Returns the number of slots, 2 to 524,288.
    pub fn size(self) -> u32
        ensures value { result ≡ size self }
        ensures in_range { (2 ≤ result) × (result ≤ 2 ^ 19) }
        ensures geometry { IsGeometry self }
    {
        1 << self.log2
    }

    /// Returns a number modulo twice the size, as indexes are counted.
    pub(crate) fn wrapped(self, number: u32) -> u32
        ensures { result ≡ number % (2 * size self) }
    {
        number & ((2 << self.log2) - 1)
    }
}
