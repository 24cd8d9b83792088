//! How far an invalidation by range reaches.
ghost use Rattle.std.specs.Prelude.{◌≡◌, ◌<◌, ℕ};
ghost use Rattle.std.specs.Option.{SomeIff};

use std::marker::Model;

/// `NUM` of an invalidation by range: the number of its steps minus one. 5 bits.
#[derive(Clone, Copy, Debug, PartialEq, Eq)]
pub struct RangeCount {
    count: u8,
}

impl Model for RangeCount {
    ghost Value = { ℕ };

    ghost view = { λ f. f.count };

    ghost invariant = { λ f. f.count < 32 };

    ghost inverse = { λ n. record { count = n } };
}

impl RangeCount {
    /// Returns the field with this value, or `None` if it is out of range.
    pub fn new(value: u64) -> Option<RangeCount>
        ensures { SomeIff result (value < 32) value }
    {
        if value < 32 {
            Some(RangeCount { count: value as u8 })
        } else {
            None
        }
    }

    /// Returns its value.
    pub fn get(self) -> u8
        ensures value { result ≡ self }
        ensures in_range { result < 32 }
    {
        self.count
    }
}

/// `SCALE` of an invalidation by range: each step is `2^SCALE` granules. 5 bits (own).
#[derive(Clone, Copy, Debug, PartialEq, Eq)]
pub struct RangeScale {
    scale: u8,
}

impl Model for RangeScale {
    ghost Value = { ℕ };

    ghost view = { λ f. f.scale };

    ghost invariant = { λ f. f.scale < 32 };

    ghost inverse = { λ n. record { scale = n } };
}

impl RangeScale {
    /// Returns the field with this value, or `None` if it is out of range.
    pub fn new(value: u64) -> Option<RangeScale>
        ensures { SomeIff result (value < 32) value }
    {
        if value < 32 {
            Some(RangeScale { scale: value as u8 })
        } else {
            None
        }
    }

    /// Returns its value.
    pub fn get(self) -> u8
        ensures value { result ≡ self }
        ensures in_range { result < 32 }
    {
        self.scale
    }
}
