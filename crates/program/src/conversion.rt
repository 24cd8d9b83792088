//! The subcommand that converts a guest's commands.
ghost use Rattle.std.specs.Prelude.{◌≡◌};
ghost use Rattle.convert.specs.Guests.{guest_asked};
ghost use Rattle.program.specs.Conversion.{EndsUnread, ExitsAsConvert, guest_asked_of};
ghost use Rattle.program.specs.Explaining.{TellsOfRefusal};

use crate::explaining::exit_of_lines;
use crate::telling::{print, tell_of_memory};
use crate::watched::Watched;
use command_line::ConvertArguments;
use convert::{Asked, GuestFault, convert_with_notes};
use script::Status;
use std::alloc::Global;
use std::io::{Read, Write};

/// Returns the guest that the command line gives.
fn asked<'a>(arguments: &'a ConvertArguments<'_>) -> Asked<'a>
    ensures { guest_asked result ≡ guest_asked_of arguments.now }
{
    Asked {
        vmid: arguments.vmid,
        streams: arguments.streams.as_slice(),
        range_invalidation: !arguments.no_range,
        ats: !arguments.no_ats,
        wide_ids: !arguments.short_ids,
        substream_bits: arguments.substream_bits,
    }
}

/// Tells why there is no guest.
fn tell_fault<W: Write>(fault: GuestFault, output: &mut Watched<W>) -> Status
    ensures { EndsUnread fault result output.old output.new }
{
    if fault == GuestFault::NoMemory {
        return tell_of_memory(output);
    }
    match print(fault.line(), output) {
        Ok(()) => Status::Refused,
        Err(_) => Status::WriteFailed,
    }
}

/// Converts a guest's commands, and returns the exit status.
pub(crate) fn convert_to_exit<I: Read, O: Write, F: Write>(
    alloc: Global,
    arguments: &ConvertArguments<'_>,
    input: &mut I,
    output: &mut Watched<O>,
    faults: &mut Watched<F>,
) -> u8
    ensures done { ExitsAsConvert (guest_asked_of arguments.now) result (I.remaining input.old)
        (I.remaining input.new) output.old output.new }
    ensures explained { TellsOfRefusal result faults.old faults.new }
{
    match asked(arguments).guest(alloc) {
        Ok(guest) => {
            let (status, notes) = convert_with_notes(alloc, guest, input, output);
            exit_of_lines(alloc, status, &notes, faults)
        }
        Err(fault) => tell_fault(fault, output).exit_status(),
    }
}
