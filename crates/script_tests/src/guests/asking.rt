//! What is asked for, and how lines are converted.
use convert::{Asked, convert_with_notes};
use guest_commands::Guest;
use script::Status;
use std::alloc::Global;
use std::io::{Read, Write};

/// The guest's stream 3 is the host's 0x103, and its 4 is 0x104, with ATS, and 0x105, without.
pub const STREAMS: [&str; 3] = ["3=0x103,ats", "4=0x104,ats", "4=0x105"];

/// A guest with VMID 0x21 and these streams, on a host whose SMMU has everything.
pub fn full<'a>(streams: &'a [&'a str]) -> Asked<'a> {
    Asked {
        vmid: "0x21",
        streams,
        range_invalidation: true,
        ats: true,
        wide_ids: true,
        substream_bits: None,
    }
}

/// Converts lines.
// The theorem isn't passed on, since it would be costly in each test.
pub fn status_of<R: Read, W: Write>(
    alloc: Global,
    guest: Guest,
    input: &mut R,
    output: &mut W,
) -> Status {
    convert_with_notes(alloc, guest, input, output).0
}
