//! Batches of the tests.
ghost use Rattle.std.specs.Prelude.{◌≤◌};

use batch::Batch;
use cmdcodec::Raw;
use std::process::Abort;

/// CMD_CFGI_STE of stream 7 with Leaf 1.
pub const CFGI_STE: Raw = Raw {
    lo: 0x0000_0007_0000_0003,
    hi: 1,
};

/// A batch of so many commands.
pub fn batch_of(rt: &impl Abort, count: usize) -> Batch
    requires { count ≤ 64 }
{
    Batch::from_raws(&[CFGI_STE; 64][..count]).expect(rt, "1 to 63 commands")
}
