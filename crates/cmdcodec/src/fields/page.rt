//! Page numbers, and the span of an ATC_INV.
ghost use Rattle.std.specs.Prelude.{◌≡◌, ◌<◌, ◌^◌, ℕ};
ghost use Rattle.std.specs.Option.{SomeIff};

use std::marker::Model;

/// The number of a 4,096-byte page: an address without its 12 low bits. 52 bits.
#[derive(Clone, Copy, Debug, PartialEq, Eq)]
pub struct Page {
    number: u64,
}

impl Model for Page {
    ghost Value = { ℕ };

    ghost view = { λ f. f.number };

    ghost invariant = { λ f. f.number < 2 ^ 52 };

    ghost inverse = { λ n. record { number = n } };
}

impl Page {
    /// Returns the field with this value, or `None` if it is out of range.
    pub fn new(value: u64) -> Option<Page>
        ensures { SomeIff result (value < 2 ^ 52) value }
    {
        if value < 1 << 52 {
            Some(Page { number: value })
        } else {
            None
        }
    }

    /// Returns its value.
    pub fn get(self) -> u64
        ensures value { result ≡ self }
        ensures in_range { result < 2 ^ 52 }
    {
        let Page { number } = self;
        number
    }
}

/// The number of a 4,096-byte page of 52-bit intermediate physical addresses (own). 40 bits.
#[derive(Clone, Copy, Debug, PartialEq, Eq)]
pub struct IpaPage {
    number: u64,
}

impl Model for IpaPage {
    ghost Value = { ℕ };

    ghost view = { λ f. f.number };

    ghost invariant = { λ f. f.number < 2 ^ 40 };

    ghost inverse = { λ n. record { number = n } };
}

impl IpaPage {
    /// Returns the field with this value, or `None` if it is out of range.
    pub fn new(value: u64) -> Option<IpaPage>
        ensures { SomeIff result (value < 2 ^ 40) value }
    {
        if value < 1 << 40 {
            Some(IpaPage { number: value })
        } else {
            None
        }
    }

    /// Returns its value.
    pub fn get(self) -> u64
        ensures value { result ≡ self }
        ensures in_range { result < 2 ^ 40 }
    {
        let IpaPage { number } = self;
        number
    }
}

/// `Size` of ATC_INV, 0 to 52: the command reaches the aligned block of `2^Size` pages.
#[derive(Clone, Copy, Debug, PartialEq, Eq)]
pub struct Size {
    power: u8,
}

impl Model for Size {
    ghost Value = { ℕ };

    ghost view = { λ f. f.power };

    ghost invariant = { λ f. f.power < 53 };

    ghost inverse = { λ n. record { power = n } };
}

impl Size {
    /// Returns the field with this value, or `None` if it is out of range.
    pub fn new(value: u64) -> Option<Size>
        ensures { SomeIff result (value < 53) value }
    {
        if value < 53 {
            Some(Size { power: value as u8 })
        } else {
            None
        }
    }

    /// Returns its value.
    pub fn get(self) -> u8
        ensures value { result ≡ self }
        ensures in_range { result < 53 }
    {
        self.power
    }
}

impl From<IpaPage> for Page {
    ghost from_gives = { λ page result. result ≡ page };

    fn from(page: IpaPage) -> Page {
        Page { number: page.get() }
    }
}
