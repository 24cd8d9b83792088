//! The program, over any reader and writers: what it does, and how it ends.
ghost use Rattle.std.specs.Prelude.{◌≡◌};
ghost use Rattle.command_line.specs.CommandLine.{texts};
ghost use Rattle.program.specs.Explaining.{Explains};
ghost use Rattle.program.specs.Stressing.{HasPlan};
ghost use Rattle.program.specs.Program.{Decodes, ExitsAs, ExitsAsDecode, ExitsAsProgram};

use crate::conversion::convert_to_exit;
use crate::explaining::{exit_of_lines, exit_of_script};
use crate::ranging::range_to_exit;
use crate::reading::{image_to_exit, words_to_exit};
use crate::serving::decode_text;
use crate::stressing::stress_to_exit;
use crate::telling::{print_line, tell, tell_of_memory};
use crate::troubles::tell_trouble;
use crate::unclear::{tell_unclear, unclear_of};
use crate::watched::Watched;
use command_line::{Subcommand, understand};
use encode::encode_with_notes;
use explanations::Script;
use replay::replay_to_last_line;
use schedule::schedule_to_last_line;
use script::Status;
use std::alloc::{AllocError, Global};
use std::io::{Read, Write};
use std::thread::Threads;
use trace::trace;

/// Writes a line that says what a word means as a command.
fn decode<W: Write>(alloc: Global, word: &str, output: &mut Watched<W>) -> Status
    ensures { Decodes result word.now output.old output.new }
{
    match decode_text(alloc, word) {
        Ok((text, is_legal)) => match print_line(text.as_str(), output) {
            Ok(()) if is_legal => Status::Good,
            Ok(()) => Status::Refused,
            Err(_) => Status::WriteFailed,
        },
        Err(_) => tell_of_memory(output),
    }
}

fn decode_to_exit<W: Write>(alloc: Global, word: &str, output: &mut Watched<W>) -> u8
    ensures { ExitsAsDecode result word.now output.old output.new }
{
    decode(alloc, word, output).exit_status()
}

/// Does what is asked for, and returns the exit status.
fn serve<'a, A: Threads + AllocGlobal + Sync, I: Read, O: Write, F: Write>(
    rt: &A,
    subcommand: Subcommand<'a>,
    input: &mut I,
    output: &mut Watched<O>,
    faults: &mut Watched<F>,
) -> u8
    requires { HasPlan subcommand }
    ensures explained { Explains subcommand.entry result (I.remaining input.old) output.old
        output.new faults.old faults.new }
    ensures done { ExitsAs subcommand.entry result (I.remaining input.old) (I.remaining input.new)
        output.old output.new }
{
    match subcommand {
        Subcommand::Replay => {
            let (status, last) = replay_to_last_line(rt.alloc(), input, output);
            exit_of_script(rt.alloc(), Script::Replay, status, &last, faults)
        }
        Subcommand::Schedule => {
            let (status, last) = schedule_to_last_line(rt.alloc(), input, output);
            exit_of_script(rt.alloc(), Script::Schedule, status, &last, faults)
        }
        Subcommand::Decode(word) => decode_to_exit(rt.alloc(), word, output),
        Subcommand::Stress(numbers) => stress_to_exit(rt, numbers, output),
        Subcommand::Words(asked) => words_to_exit(rt.alloc(), asked, input, output, faults),
        Subcommand::Image(arguments) => image_to_exit(
            rt.alloc(),
            &arguments,
            input,
            output,
            faults,
        ),
        Subcommand::Encode => {
            let (status, notes) = encode_with_notes(rt.alloc(), input, output);
            exit_of_lines(rt.alloc(), status, &notes, faults)
        }
        Subcommand::Trace => trace(rt.alloc(), input, output).exit_status(),
        Subcommand::Range(arguments) => range_to_exit(rt.alloc(), &arguments, output),
        Subcommand::Convert(arguments) => convert_to_exit(
            rt.alloc(),
            &arguments,
            input,
            output,
            faults,
        ),
    }
}

/// Does what the words ask, without the program's own name, and returns the exit status: 0 good, 1 refused input, 2 a
/// command line that isn't understood, 3 out of memory, 4 a failed read or write.
///
/// The command line is judged before any input is read. Answers go to `output`, and what is wrong with
/// the command line goes to `faults`, with a line for status 3 and 4.
#[tactic(auto, using(crate::proofs::Plans::has_plan))]
pub fn program<'a, A: Threads + AllocGlobal + Sync, I: Read, O: Write, F: Write>(
    rt: &A,
    words: &'a [&'a str],
    input: &mut I,
    output: &mut Watched<O>,
    faults: &mut Watched<F>,
) -> u8
    // Either the words have no fault, and what they ask for was done; or it was told why they ask for nothing.
    ensures { ExitsAsProgram (texts words.entry.now) result (I.remaining input.old)
        (I.remaining input.new) output.old output.new faults.old faults.new }
{
    match understand(rt.alloc(), words) {
        Ok(subcommand) => {
            if let Some(unclear) = unclear_of(&subcommand) {
                return tell_unclear(unclear, faults);
            }
            let exit = serve(rt, subcommand, input, output, faults);
            tell_trouble(rt.alloc(), exit, output, faults);
            exit
        }
        Err(why) => tell(rt.alloc(), &why, output, faults),
    }
}
