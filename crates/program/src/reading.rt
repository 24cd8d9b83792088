//! The parts of the program that read lines of words and the memory of a queue.
ghost use Rattle.std.specs.Prelude.{◌≡◌};
ghost use Rattle.image.specs.Tellings.{ExitsAsImage};
ghost use Rattle.program.specs.Explaining.{TellsOfHint, TellsOfRefusal};
ghost use Rattle.program.specs.Images.{asked_of, errors_of, register};
ghost use Rattle.program.specs.Program.{ExitsInForm};

use crate::explaining::{exit_of_image, exit_of_lines};
use crate::watched::Watched;
use command_line::{ImageArguments, WordsArguments};
use image::{Asked, ErrorRegisters, image_with_hint};
use script::one_number;
use std::alloc::Global;
use std::io::{Read, Write};
use words::{hex_dump_with_notes, log_with_notes, words_with_notes};

/// Answers lines of words, and returns the exit status.
pub(crate) fn words_to_exit<I: Read, O: Write, F: Write>(
    alloc: Global,
    asked: WordsArguments,
    input: &mut I,
    output: &mut O,
    faults: &mut Watched<F>,
) -> u8
    ensures done { ExitsInForm asked.log asked.hex result (I.remaining input.old)
        (I.remaining input.new) (O.contents output.old) (O.contents output.new) }
    ensures explained { TellsOfRefusal result faults.old faults.new }
{
    let (status, notes) = if asked.log {
        log_with_notes(alloc, input, output)
    } else if asked.hex {
        hex_dump_with_notes(alloc, input, output)
    } else {
        words_with_notes(alloc, input, output)
    };
    exit_of_lines(alloc, status, &notes, faults)
}

fn register(text: &str) -> Option<u32>
    ensures { result ≡ register text.now }
{
    one_number(text.as_bytes())
}

/// Returns the error registers, if both are given.
fn errors_of(gerror: Option<&str>, gerrorn: Option<&str>) -> Option<ErrorRegisters>
    ensures { result ≡ errors_of gerror.entry gerrorn.entry }
{
    match (gerror, gerrorn) {
        (Some(gerror), Some(gerrorn)) => Some(ErrorRegisters {
            gerror: register(gerror),
            gerrorn: register(gerrorn),
        }),
        _ => None,
    }
}

/// Returns what the command line asks to be shown.
fn asked(arguments: &ImageArguments<'_>) -> Asked
    ensures { result ≡ asked_of arguments.now }
{
    Asked {
        log2: arguments.log2,
        prod: register(arguments.prod),
        cons: register(arguments.cons),
        all: arguments.all,
        hex: arguments.hex,
        errors: errors_of(arguments.gerror, arguments.gerrorn),
    }
}

/// Shows the memory of a queue, and returns the exit status.
pub(crate) fn image_to_exit<I: Read, O: Write, F: Write>(
    alloc: Global,
    arguments: &ImageArguments<'_>,
    input: &mut I,
    output: &mut O,
    faults: &mut Watched<F>,
) -> u8
    ensures explained { TellsOfHint (asked_of arguments.now) result (I.remaining input.old)
        faults.old faults.new }
    ensures done { ExitsAsImage (asked_of arguments.now) result (I.remaining input.old)
        (I.remaining input.new) (O.contents output.old) (O.contents output.new) }
{
    let asked = asked(arguments);
    let (status, hint) = image_with_hint(alloc, &asked, input, output);
    exit_of_image(alloc, status, hint, faults)
}
