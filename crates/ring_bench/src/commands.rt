//! The commands that are sent.
ghost use Rattle.std.specs.Prelude.{◌≤◌};

use batch::Batch;
use cmdcodec::Raw;
use std::io;
use std::io::ErrorKind;

/// CMD_CFGI_STE of stream 7.
const CFGI_STE: Raw = Raw {
    lo: 0x0000_0007_0000_0003,
    hi: 1,
};

/// Returns a batch of `length` commands, at most 63.
pub(crate) fn batch_of(length: usize) -> io::Result<Batch>
    requires { length ≤ 63 }
{
    let Ok(batch) = Batch::from_raws(&[CFGI_STE; 63][..length]) else {
        return Err(io::Error::from(ErrorKind::InvalidData));
    };
    Ok(batch)
}
