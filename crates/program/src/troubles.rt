//! What is told on standard error if memory ran out, or a read or a write failed.
ghost use Rattle.std.specs.Prelude.{OnErr, OnOk};
ghost use Rattle.program.specs.Troubles.{IsToldOfOutput, IsTried, TellsTrouble, stream_line};
ghost use Rattle.program.specs.Watching.{HasFailed, Tells};

use crate::telling::{print, print_line, try_line};
use crate::watched::Watched;
use script::Status;
use std::alloc::Global;
use std::io;
use std::io::Write;

fn print_stream<F: Write>(stream: &str, cause: &str, faults: &mut Watched<F>) -> io::Result<()>
    ensures ok { OnOk result (Tells faults.old faults.new (stream_line stream.now cause.now)) }
    ensures err { OnErr result (HasFailed faults.new) }
{
    print("smmuq: ", faults)?;
    print(stream, faults)?;
    print(": ", faults)?;
    print_line(cause, faults)
}

/// Tells which stream failed, and why. A write that fails here changes nothing.
fn try_stream<F: Write>(stream: &str, cause: &str, faults: &mut Watched<F>)
    ensures { IsTried faults.old faults.new (stream_line stream.now cause.now) }
{
    match print_stream(stream, cause, faults) {
        Ok(()) | Err(_) => {}
    }
}

/// Tells why standard output failed, if there is memory for the system's text.
fn try_output<F: Write>(alloc: Global, why: &io::Error, faults: &mut Watched<F>)
    ensures { IsToldOfOutput faults.old faults.new }
{
    if let Ok(cause) = format!(in alloc; "{why}") {
        try_stream("standard output", cause.as_str(), faults);
    }
}

/// Tells which stream failed, and for standard output why, but nothing of a pipe that was closed at its other end.
fn tell_stream<O: Write, F: Write>(alloc: Global, output: &Watched<O>, faults: &mut Watched<F>)
    ensures { TellsTrouble 4 output.now faults.old faults.new }
{
    match output.failure() {
        None => try_stream("standard input", "it couldn't be read", faults),
        Some(why) => {
            if !output.is_closed() {
                try_output(alloc, why, faults);
            }
        }
    }
}

/// Tells what went wrong with memory, a read or a write in a run with this exit status.
pub(crate) fn tell_trouble<O: Write, F: Write>(
    alloc: Global,
    exit: u8,
    output: &Watched<O>,
    faults: &mut Watched<F>,
)
    ensures { TellsTrouble exit output.now faults.old faults.new }
{
    if exit == Status::NoMemory.exit_status() {
        try_line("smmuq: out of memory", faults);
    } else if exit == Status::WriteFailed.exit_status() {
        tell_stream(alloc, output, faults);
    }
}
