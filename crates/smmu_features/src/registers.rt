//! Fields of a register of 32 bits.
ghost use Rattle.std.specs.Prelude.{◌≡◌, ◌<◌, ◌≤◌, ◌+◌, ◌-◌, ◌^◌};
ghost use Rattle.cmdcodec.specs.Fields.{field};
ghost use Rattle.smmu_features.specs.IdRegisters.{is_set};

/// Returns bits `high:low` of a register. Bit 31 is in none that is read.
pub(crate) fn field(register: u32, high: u32, low: u32) -> u32
    requires order { low ≤ high }
    requires width { high < 31 }
    ensures { result ≡ field register high low }
{
    (register >> low) % (1 << (high + 1 - low))
}

/// Returns whether a bit of a register is 1.
pub(crate) fn is_set(register: u32, place: u32) -> bool
    requires { place < 31 }
    ensures { result ≡ is_set register place }
{
    field(register, place, place) == 1
}
