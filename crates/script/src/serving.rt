//! Serving a script, from a reader to a writer.
ghost use Rattle.std.specs.Prelude.{◌≡◌, ◌^◌, IfOk, IfErr, IfSome, OnErr, true};
ghost use Rattle.std.specs.Io.KnownBytes.{IsAtEnd};
ghost use Rattle.script.specs.Errors.{is_read, is_memory, is_endless};
ghost use Rattle.script.specs.Endings.{EndsKnown};
ghost use Rattle.script.specs.Knowing.{Learns};
ghost use Rattle.script.specs.Lines.{lines_of};
ghost use Rattle.script.specs.Writing.{WritesAnswer, WritesNoMemory, WritesBeginning, AnswersWholeLines, ReadsAtLeast};

use crate::ending::Ending;
use crate::error::ServeError;
use crate::interpreter::Interpreter;
use crate::run::{Pause, Run};
use crate::sending::tell_of_memory;
use std::alloc::Global;
use std::io::{Read, Write};

/// Reads a script, serves its lines in order, and writes their answers. All answers so far are written before more is
/// read.
pub fn serve<I: Interpreter, R: Read, W: Write>(
    alloc: Global,
    interpreter: &mut I,
    input: &mut R,
    output: &mut W,
) -> Result<Ending, ServeError>
    // If nothing failed, what was written is what the script comes to, and nothing else.
    ensures answer { IfOk result (λ ending.
        WritesAnswer (I.gives interpreter.old) (R.remaining input.old) (W.contents output.old)
        (W.contents output.new) ending) }
    ensures end { IfOk result (λ ending. ending ≡ Ending.Finished
        → IsAtEnd (R.remaining input.new)) }

    // If a line ended the run, the interpreter knows which.
    ensures last { IfOk result (λ ending.
        WritesAnswer (EndsKnown (I.gives interpreter.old) (I.ended_at interpreter.new))
        (R.remaining input.old) (W.contents output.old) (W.contents output.new) ending) }

    // If the script was served to its end, the interpreter has learned of all its lines.
    ensures learns { IfOk result (λ ending. ending ≡ Ending.Finished
        → IfSome (R.remaining input.old) (λ script.
        Learns I.knows interpreter.old interpreter.new (lines_of script))) }

    // If memory ran out, the answers to the lines before were written, and then the line that tells of it.
    ensures memory { IfErr result (λ e. is_memory e ≡ true
        → WritesNoMemory (I.gives interpreter.old) (R.remaining input.old) (W.contents output.old)
        (W.contents output.new)) }

    // After any error, what was written is a beginning of one of these texts, whatever follows what was read.
    ensures beginning { OnErr result (WritesBeginning (I.gives interpreter.old)
        (R.remaining input.old) (R.remaining input.new) (W.contents output.old)
        (W.contents output.new)) }

    // If the reader failed, exactly the lines whose ends were read were answered.
    ensures read { IfErr result (λ e. is_read e ≡ true
        → AnswersWholeLines (I.gives interpreter.old) (R.remaining input.old)
        (R.remaining input.new) (W.contents output.old) (W.contents output.new)) }

    // Any error but being out of memory, a failed read or a failed write takes a script of 2^63 bytes or more.
    ensures endless { IfErr result (λ e. is_endless e ≡ true
        → ReadsAtLeast (2 ^ 63) (R.remaining input.old) (R.remaining input.new)) }
{
    let mut run = match Run::new(alloc) {
        Ok(run) => run,
        Err(e) => return Err(tell_of_memory(output, e)),
    };
    // Each turn serves bytes, or reads some, or is the last.
    'turns: for turn in 0..u64::MAX {
        match run.deliver(interpreter, output)? {
            Pause::Ended => return Ok(Ending::Refused),
            Pause::Full => continue,
            Pause::Drained => {}
        }
        if !run.read_more(input)? {
            return run.finish(interpreter, output);
        }
    }
    Err(ServeError::Endless)
}
