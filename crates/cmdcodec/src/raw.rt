//! The two words of a command and its 16 bytes.
ghost use Rattle.std.specs.Prelude.{◌≡◌};
ghost use Rattle.cmdcodec.specs.Bytes.{bytes_of, raw_of};

use crate::limits::MOST_BATCH_COMMANDS;
use arrayvec::ArrayVec;
use byteorder::{ByteOrder, LittleEndian};

/// The two 64-bit words of a command, legal or not, laid out as in C.
#[repr(C)]
#[derive(Clone, Copy, Debug, Default, PartialEq, Eq)]
pub struct Raw {
    /// The low word, with the opcode in bits 7:0.
    pub lo: u64,
    /// The high word.
    pub hi: u64,
}

/// A list of at most a batch's commands that takes no memory from the heap.
pub type RawList = ArrayVec<Raw, MOST_BATCH_COMMANDS>;

/// Returns the bytes of a command as the queue holds them: lo first, each word little-endian.
pub fn to_bytes(raw: Raw) -> [u8; 16]
    ensures bytes { result ≡ bytes_of raw }
    ensures read_again { raw_of result ≡ raw }
{
    let mut bytes = [0; 16];
    LittleEndian::write_u64(&mut bytes, raw.lo);
    LittleEndian::write_u64(&mut bytes[8..], raw.hi);
    bytes
}

/// Reads the words of a command from its bytes.
#[tactic(auto, using(crate::proofs::ByteLemmas::written_again))]
pub fn from_bytes(bytes: &[u8; 16]) -> Raw
    ensures words { result ≡ raw_of bytes.now }
    ensures written_again { bytes_of result ≡ bytes.now }
{
    let (low, high) = bytes.split_at(8);
    Raw {
        lo: LittleEndian::read_u64(low),
        hi: LittleEndian::read_u64(high),
    }
}
