//! How a CMD_SYNC signals its completion.
ghost use Rattle.std.specs.Prelude.{◌≡◌, ◌<◌, ◌^◌, ℕ};
ghost use Rattle.std.specs.Option.{SomeIff};

use std::marker::Model;

/// `CS` of CMD_SYNC, how completion is signalled: 0 not at all, 1 by interrupt, 2 by event.
#[derive(Clone, Copy, Debug, PartialEq, Eq)]
pub struct Cs {
    signal: u8,
}

impl Model for Cs {
    ghost Value = { ℕ };

    ghost view = { λ f. f.signal };

    ghost invariant = { λ f. f.signal < 3 };

    ghost inverse = { λ n. record { signal = n } };
}

impl Cs {
    /// Returns the field with this value, or `None` if it is out of range.
    pub fn new(value: u64) -> Option<Cs>
        ensures { SomeIff result (value < 3) value }
    {
        if value < 3 {
            Some(Cs {
                signal: value as u8,
            })
        } else {
            None
        }
    }

    /// Returns its value.
    pub fn get(self) -> u8
        ensures value { result ≡ self }
        ensures in_range { result < 3 }
    {
        self.signal
    }
}

/// `MSH` of CMD_SYNC, the shareability of the completing write: 2 bits.
#[derive(Clone, Copy, Debug, PartialEq, Eq)]
pub struct Msh {
    shareability: u8,
}

impl Model for Msh {
    ghost Value = { ℕ };

    ghost view = { λ f. f.shareability };

    ghost invariant = { λ f. f.shareability < 4 };

    ghost inverse = { λ n. record { shareability = n } };
}

impl Msh {
    /// Returns the field with this value, or `None` if it is out of range.
    pub fn new(value: u64) -> Option<Msh>
        ensures { SomeIff result (value < 4) value }
    {
        if value < 4 {
            Some(Msh {
                shareability: value as u8,
            })
        } else {
            None
        }
    }

    /// Returns its value.
    pub fn get(self) -> u8
        ensures value { result ≡ self }
        ensures in_range { result < 4 }
    {
        self.shareability
    }
}

/// `MSIATTR` of CMD_SYNC, the memory type of the completing write: 4 bits.
#[derive(Clone, Copy, Debug, PartialEq, Eq)]
pub struct Attr {
    attributes: u8,
}

impl Model for Attr {
    ghost Value = { ℕ };

    ghost view = { λ f. f.attributes };

    ghost invariant = { λ f. f.attributes < 16 };

    ghost inverse = { λ n. record { attributes = n } };
}

impl Attr {
    /// Returns the field with this value, or `None` if it is out of range.
    pub fn new(value: u64) -> Option<Attr>
        ensures { SomeIff result (value < 16) value }
    {
        if value < 16 {
            Some(Attr {
                attributes: value as u8,
            })
        } else {
            None
        }
    }

    /// Returns its value.
    pub fn get(self) -> u8
        ensures value { result ≡ self }
        ensures in_range { result < 16 }
    {
        self.attributes
    }
}

/// `MSIADDR` of CMD_SYNC: the address of the completing write without its two low bits. 50 bits.
#[derive(Clone, Copy, Debug, PartialEq, Eq)]
pub struct MsiWord {
    word: u64,
}

impl Model for MsiWord {
    ghost Value = { ℕ };

    ghost view = { λ f. f.word };

    ghost invariant = { λ f. f.word < 2 ^ 50 };

    ghost inverse = { λ n. record { word = n } };
}

impl MsiWord {
    /// Returns the field with this value, or `None` if it is out of range.
    pub fn new(value: u64) -> Option<MsiWord>
        ensures { SomeIff result (value < 2 ^ 50) value }
    {
        if value < 1 << 50 {
            Some(MsiWord { word: value })
        } else {
            None
        }
    }

    /// Returns its value.
    pub fn get(self) -> u64
        ensures value { result ≡ self }
        ensures in_range { result < 2 ^ 50 }
    {
        self.word
    }
}
