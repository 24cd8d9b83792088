//! Whose translations a command drops.
ghost use Rattle.std.specs.Prelude.{◌≡◌, ◌<◌, ◌^◌, ℕ};
ghost use Rattle.std.specs.Option.{SomeIff};

use std::marker::Model;

/// The number of a virtual machine, `VMID`: 16 bits.
#[derive(Clone, Copy, Debug, PartialEq, Eq)]
pub struct Vmid {
    id: u16,
}

impl Model for Vmid {
    ghost Value = { ℕ };

    ghost view = { λ f. f.id };

    ghost invariant = { λ f. f.id < 2 ^ 16 };

    ghost inverse = { λ n. record { id = n } };
}

impl Vmid {
    /// Returns the field with this value, or `None` if it is out of range.
    pub fn new(value: u64) -> Option<Vmid>
        ensures { SomeIff result (value < 2 ^ 16) value }
    {
        if value < 1 << 16 {
            Some(Vmid { id: value as u16 })
        } else {
            None
        }
    }

    /// Returns its value.
    pub fn get(self) -> u16
        ensures value { result ≡ self }
        ensures in_range { result < 2 ^ 16 }
    {
        let Vmid { id } = self;
        id
    }
}

/// The number of an address space, `ASID`: 16 bits.
#[derive(Clone, Copy, Debug, PartialEq, Eq)]
pub struct Asid {
    id: u16,
}

impl Model for Asid {
    ghost Value = { ℕ };

    ghost view = { λ f. f.id };

    ghost invariant = { λ f. f.id < 2 ^ 16 };

    ghost inverse = { λ n. record { id = n } };
}

impl Asid {
    /// Returns the field with this value, or `None` if it is out of range.
    pub fn new(value: u64) -> Option<Asid>
        ensures { SomeIff result (value < 2 ^ 16) value }
    {
        if value < 1 << 16 {
            Some(Asid { id: value as u16 })
        } else {
            None
        }
    }

    /// Returns its value.
    pub fn get(self) -> u16
        ensures value { result ≡ self }
        ensures in_range { result < 2 ^ 16 }
    {
        let Asid { id } = self;
        id
    }
}
