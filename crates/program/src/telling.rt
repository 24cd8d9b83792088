//! What is told when memory runs out, of help, and of faults of the command line.
ghost use Rattle.std.specs.Prelude.{◌≡◌, ◌++◌, ◌⊎◌, MatchResult, OnErr, OnOk, codes};
ghost use Rattle.std.specs.IoError.{error_kind};
ghost use Rattle.script.specs.Writing.{no_memory_line};
ghost use Rattle.program.specs.Watching.{HasFailed, Tells, TellsWith};
ghost use Rattle.program.specs.Telling.{ExitsAsTold, ExitsWithoutWords, line_of};
ghost use Rattle.program.specs.Troubles.{IsTried, TellsTrouble};

use crate::troubles::tell_trouble;
use crate::watched::Watched;
use command_line::Misunderstood;
use script::Status;
use std::alloc::Global;
use std::io;
use std::io::{ErrorKind, Write};

/// The exit status for a command line that isn't understood.
const NOT_UNDERSTOOD: u8 = 2;

pub(crate) fn print<W: Write>(text: &str, output: &mut Watched<W>) -> io::Result<()>
    ensures ok { OnOk result (Tells output.old output.new text.now) }
    ensures err { OnErr result (HasFailed output.new) }
{
    output.write_all(text.as_bytes())?;
    output.flush()
}

pub(crate) fn print_line<W: Write>(line: &str, output: &mut Watched<W>) -> io::Result<()>
    ensures ok { OnOk result (Tells output.old output.new (line.now ++ codes "\n")) }
    ensures err { OnErr result (HasFailed output.new) }
{
    output.write_all(line.as_bytes())?;
    print("\n", output)
}

/// Prints a text. A write that fails here changes nothing.
pub(crate) fn try_text<W: Write>(text: &str, output: &mut Watched<W>)
    ensures { IsTried output.old output.new text.now }
{
    match print(text, output) {
        Ok(()) | Err(_) => {}
    }
}

/// Prints a line. A write that fails here changes nothing.
pub(crate) fn try_line<W: Write>(line: &str, output: &mut Watched<W>)
    ensures { IsTried output.old output.new (line_of line.now) }
{
    match print_line(line, output) {
        Ok(()) | Err(_) => {}
    }
}

/// Tells that memory ran out.
pub fn tell_of_memory<W: Write>(output: &mut Watched<W>) -> Status
    ensures told { result ≡ Status.NoMemory → Tells output.old output.new no_memory_line }
    ensures fails { result ≡ Status.WriteFailed → HasFailed output.new }
    ensures failed { (result ≡ Status.NoMemory) ⊎ (result ≡ Status.WriteFailed) }
{
    match print_line("no memory", output) {
        Ok(()) => Status::NoMemory,
        Err(_) => Status::WriteFailed,
    }
}

/// Prints a line, and returns this exit status, or that of a failed write.
fn tell_line<W: Write>(line: &str, status: u8, output: &mut Watched<W>) -> u8
    ensures { TellsWith status (line.now ++ codes "\n") result output.old output.new }
{
    match print_line(line, output) {
        Ok(()) => status,
        Err(_) => Status::WriteFailed.exit_status(),
    }
}

/// Tells what is wrong with the command line, and returns the exit status.
pub(crate) fn tell_fault<W: Write>(why: &str, faults: &mut Watched<W>) -> u8
    ensures { TellsWith 2 (line_of why.now) result faults.old faults.new }
{
    tell_line(why, NOT_UNDERSTOOD, faults)
}

/// Tells that memory ran out, on the output and on standard error.
fn tell_both_of_memory<O: Write, F: Write>(
    alloc: Global,
    output: &mut Watched<O>,
    faults: &mut Watched<F>,
) -> u8
    ensures told { TellsWith 3 no_memory_line result output.old output.new }
    ensures trouble { TellsTrouble result output.new faults.old faults.new }
{
    let exit = tell_of_memory(output).exit_status();
    tell_trouble(alloc, exit, output, faults);
    exit
}

fn tell_help<O: Write, F: Write>(
    alloc: Global,
    text: &str,
    output: &mut Watched<O>,
    faults: &mut Watched<F>,
) -> u8
    ensures told { TellsWith 0 (line_of text.now) result output.old output.new }
    ensures trouble { TellsTrouble result output.new faults.old faults.new }
{
    let exit = tell_line(text, Status::Good.exit_status(), output);
    tell_trouble(alloc, exit, output, faults);
    exit
}

/// Tells what is wrong with the words of the command line, or the help that they ask for, and returns the exit status.
pub(crate) fn tell<O: Write, F: Write>(
    alloc: Global,
    why: &Misunderstood,
    output: &mut Watched<O>,
    faults: &mut Watched<F>,
) -> u8
    ensures { ExitsAsTold why.now result output.old output.new faults.old faults.new }
{
    if why.is_out_of_memory() {
        return tell_both_of_memory(alloc, output, faults);
    }
    if why.is_fault() {
        tell_line(why.text(), NOT_UNDERSTOOD, faults)
    } else {
        tell_help(alloc, why.text(), output, faults)
    }
}

/// Tells why the system gives no words of the command line: memory ran out, or a word isn't UTF-8. Returns the exit
/// status.
pub fn tell_without_words<O: Write, F: Write>(
    alloc: Global,
    why: &io::Error,
    output: &mut Watched<O>,
    faults: &mut Watched<F>,
) -> u8
    ensures { ExitsWithoutWords (error_kind why.now) result output.old output.new faults.old
        faults.new }
{
    if why.kind() == ErrorKind::OutOfMemory {
        return tell_both_of_memory(alloc, output, faults);
    }
    let line = "error: a word of the command line isn't UTF-8";
    tell_line(line, NOT_UNDERSTOOD, faults)
}
