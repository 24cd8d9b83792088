//! Bit fields of a word.
ghost use Rattle.std.specs.Prelude.{◌≡◌, ◌<◌, ◌≤◌, ◌+◌, ◌-◌, ◌^◌};
ghost use Rattle.cmdcodec.specs.Fields.{field};

/// Returns bits `high:low` of `word`.
pub(crate) fn field(word: u64, high: u32, low: u32) -> u64
    requires order { low ≤ high }
    requires width { high < 64 }
    ensures value { result ≡ field word high low }
    ensures in_range { result < 2 ^ (high + 1 - low) }
{
    (word >> low) & (u64::MAX >> (63 - (high - low)))
}
