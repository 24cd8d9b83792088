//! The level hint of an invalidation of the TLB by address.
ghost use Rattle.std.specs.Prelude.{◌≡◌, ◌<◌, IfSome};
ghost use Rattle.std.specs.Option.{SomeIff};
ghost use Rattle.range_hints.specs.Hints.{has_ttl, ttl_number, ttl_named};

use cmdcodec::Command;

/// `TTL` of CMD_TLBI_NH_VA, NH_VAA, EL2_VA, EL2_VAA and S2_IPA: the level of the translation table in which the leaves
/// are whose translations go.
#[derive(Clone, Copy, Debug, PartialEq, Eq)]
pub enum Ttl {
    /// 0: no hint, the leaves may be at any level.
    AnyLevel,
    /// 1.
    Level1,
    /// 2.
    Level2,
    /// 3: pages.
    Level3,
}

impl Ttl {
    /// Returns the hint with this number, 0 to 3, or `None` for any other number.
    pub fn new(value: u64) -> Option<Ttl>
        ensures named { SomeIff result (value < 4) (ttl_named value) }
        ensures number { IfSome result (λ ttl. ttl_number ttl ≡ value) }
    {
        match value {
            0 => Some(Ttl::AnyLevel),
            1 => Some(Ttl::Level1),
            2 => Some(Ttl::Level2),
            3 => Some(Ttl::Level3),
            _ => None,
        }
    }

    /// Returns its number, 0 to 3.
    pub fn get(self) -> u8
        ensures value { result ≡ ttl_number self }
        ensures in_range { result < 4 }
    {
        match self {
            Ttl::AnyLevel => 0,
            Ttl::Level1 => 1,
            Ttl::Level2 => 2,
            Ttl::Level3 => 3,
        }
    }
}

/// Whether the command has a place for a hint: an invalidation of the TLB by address.
pub fn has_ttl(command: &Command) -> bool
    ensures { result ≡ has_ttl command.now }
{
    command.pages().is_some()
}
