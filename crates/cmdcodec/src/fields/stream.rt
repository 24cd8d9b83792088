//! The streams and substreams that a command names.
ghost use Rattle.std.specs.Prelude.{◌≡◌, ◌<◌, ◌^◌, ℕ};
ghost use Rattle.std.specs.Option.{SomeIff};

use std::marker::Model;

/// The number of a stream, `StreamID`: 32 bits.
#[derive(Clone, Copy, Debug, PartialEq, Eq, PartialOrd, Ord)]
pub struct Sid {
    id: u32,
}

impl Model for Sid {
    ghost Value = { ℕ };

    ghost view = { λ f. f.id };

    ghost invariant = { λ f. f.id < 2 ^ 32 };

    ghost inverse = { λ n. record { id = n } };
}

impl Sid {
    /// Returns the field with this value, or `None` if it is out of range.
    pub fn new(value: u64) -> Option<Sid>
        ensures { SomeIff result (value < 2 ^ 32) value }
    {
        if value < 1 << 32 {
            Some(Sid { id: value as u32 })
        } else {
            None
        }
    }

    /// Returns its value.
    pub fn get(self) -> u32
        ensures value { result ≡ self }
        ensures in_range { result < 2 ^ 32 }
    {
        let Sid { id } = self;
        id
    }
}

/// The number of a substream of a stream, `SubstreamID`: 20 bits.
#[derive(Clone, Copy, Debug, PartialEq, Eq)]
pub struct Ssid {
    id: u32,
}

impl Model for Ssid {
    ghost Value = { ℕ };

    ghost view = { λ f. f.id };

    ghost invariant = { λ f. f.id < 2 ^ 20 };

    ghost inverse = { λ n. record { id = n } };
}

impl Ssid {
    /// Returns the field with this value, or `None` if it is out of range.
    pub fn new(value: u64) -> Option<Ssid>
        ensures { SomeIff result (value < 2 ^ 20) value }
    {
        if value < 1 << 20 {
            Some(Ssid { id: value as u32 })
        } else {
            None
        }
    }

    /// Returns its value.
    pub fn get(self) -> u32
        ensures value { result ≡ self }
        ensures in_range { result < 2 ^ 20 }
    {
        let Ssid { id } = self;
        id
    }
}

/// `Range` of CFGI_STE_RANGE: the command reaches `2^(Range+1)` streams. 5 bits.
#[derive(Clone, Copy, Debug, PartialEq, Eq)]
pub struct StreamRange {
    range: u8,
}

impl Model for StreamRange {
    ghost Value = { ℕ };

    ghost view = { λ f. f.range };

    ghost invariant = { λ f. f.range < 32 };

    ghost inverse = { λ n. record { range = n } };
}

impl StreamRange {
    /// Returns the field with this value, or `None` if it is out of range.
    pub fn new(value: u64) -> Option<StreamRange>
        ensures { SomeIff result (value < 32) value }
    {
        if value < 32 {
            Some(StreamRange { range: value as u8 })
        } else {
            None
        }
    }

    /// Returns its value.
    pub fn get(self) -> u8
        ensures value { result ≡ self }
        ensures in_range { result < 32 }
    {
        self.range
    }
}
