//! Aligned blocks of numbers.
ghost use Rattle.std.specs.Prelude.{◌≡◌, ◌<◌, ◌≤◌, ◌^◌};
ghost use Rattle.caches.specs.Blocks.{aligned};

use cmdcodec::PageRun;

/// The number of numbers in a block.
fn size_of(power: u8) -> u64
    requires { power ≤ 52 }
    ensures { result ≡ 2 ^ power }
{
    1 << power
}

/// The aligned block of `2^power` numbers that holds `number`.
pub(crate) fn aligned(number: u64, power: u8) -> PageRun
    requires power { power ≤ 52 }
    requires number { number < 2 ^ 52 }
    ensures block { result ≡ aligned number (2 ^ power) }
    ensures some { result.first < result.end }
    ensures within { result.end ≤ 2 ^ 52 }
{
    let size = size_of(power);
    let first = number / size * size;
    PageRun {
        first,
        end: first + size,
    }
}
