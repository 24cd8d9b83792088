//! What the words of a command line ask for.
ghost use Rattle.std.specs.Prelude.{◌≡◌, IfOk, false};
ghost use Rattle.clap.specs.Words.{FailsBy, app_of, fault_of, rule_of, subcommand_rows_of};
ghost use Rattle.clap.specs.Walk.{texts};
ghost use Rattle.command_line.specs.CommandLine as spec;

use crate::convert_arguments::{CONVERT, ConvertArguments, convert};
use crate::image_arguments::{IMAGE, ImageArguments, image};
use crate::misunderstood::Misunderstood;
use crate::range_arguments::{RANGE, RangeArguments, range};
use crate::stress_numbers::{STRESS, StressNumbers, numbers_in, stress};
use crate::words_arguments::{WORDS, WordsArguments, words};
use crate::{convert_arguments, help, image_arguments, range_arguments, words_arguments};
use clap::{Arg, ArgMatches, Command, Error};
use std::alloc::{AllocError, Global};

/// The subcommand that plays a schedule.
const SCHEDULE: &str = "schedule";

/// The subcommand that decodes a word, and the name of that word.
const DECODE: &str = "decode";

const HEX: &str = "HEX";

/// The subcommand that says which words lines of text mean.
const ENCODE: &str = "encode";

/// The subcommand that judges a device model's log.
const TRACE: &str = "trace";

/// What the words of a command line ask for.
#[derive(Drop)]
pub enum Subcommand<'a> {
    /// Serve a script.
    Replay,
    /// Play a script as a schedule of a ring's atomic steps.
    Schedule,
    /// Say what a word means as a command.
    Decode(&'a str),
    /// Run many senders and an engine at the same time.
    Stress(StressNumbers),
    /// Say what each line of words means as a command.
    Words(WordsArguments),
    /// Show the memory of a queue.
    Image(ImageArguments<'a>),
    /// Say which words each line of text means as a command.
    Encode,
    /// Judge the log of a device model.
    Trace,
    /// Write the commands of an invalidation.
    Range(RangeArguments<'a>),
    /// Convert a guest's commands for the host's queue.
    Convert(ConvertArguments<'a>),
}

fn replay<'a>(alloc: Global) -> Command<'a>
    ensures { app_of result ≡ spec.replay }
{
    Command::new(alloc, "replay")
        .about("Serves a script of a ring, its caches and commands")
        .override_usage("smmuq replay < SCRIPT")
        .after_help(help::REPLAY)
}

fn schedule<'a>(alloc: Global) -> Command<'a>
    ensures { app_of result ≡ spec.schedule }
{
    Command::new(alloc, SCHEDULE)
        .about("Plays a script of a ring's atomic steps, in any order")
        .override_usage("smmuq schedule < SCRIPT")
        .after_help(help::SCHEDULE)
}

/// The word to decode.
fn hex<'a>(alloc: Global) -> Arg<'a>
    ensures rule { rule_of result ≡ spec.hex }
    ensures local { result.global ≡ false }
{
    Arg::new(alloc, HEX)
        .help("16 bytes of a command, as they lie in the queue")
        .required(true)
}

fn decode<'a>(alloc: Global) -> Result<Command<'a>, AllocError>
    ensures { IfOk result (λ command. app_of command ≡ spec.decode) }
{
    Command::new(alloc, DECODE)
        .about("Says what 32 hexadecimal digits mean as a command")
        .override_usage("smmuq decode <HEX>")
        .after_help(help::DECODE)
        .arg(hex(alloc))
}

fn encode<'a>(alloc: Global) -> Command<'a>
    ensures { app_of result ≡ spec.encode }
{
    Command::new(alloc, ENCODE)
        .about("Says which words each line of text means as a command")
        .override_usage("smmuq encode < TEXTS")
        .after_help(help::ENCODE)
}

fn trace<'a>(alloc: Global) -> Command<'a>
    ensures { app_of result ≡ spec.trace }
{
    Command::new(alloc, TRACE)
        .about("Judges the log of a device model, line by line")
        .override_usage("smmuq trace < LOG")
        .after_help(help::TRACE)
}

fn command_line<'a>(alloc: Global) -> Result<Command<'a>, AllocError>
    ensures { IfOk result (λ command. app_of command ≡ spec.smmuq) }
{
    Command::new(alloc, "smmuq")
        .about("The command queue and the caches of an SMMUv3, as a simulator")
        .after_help(help::SMMUQ)
        .no_binary_name(true)
        .subcommand_required(true)
        .version(help::VERSION)
        .subcommand(replay(alloc))?
        .subcommand(schedule(alloc))?
        .subcommand(decode(alloc)?)?
        .subcommand(stress(alloc)?)?
        .subcommand(words(alloc)?)?
        .subcommand(image(alloc)?)?
        .subcommand(encode(alloc))?
        .subcommand(trace(alloc))?
        .subcommand(range(alloc)?)?
        .subcommand(convert(alloc)?)
}

fn subcommand_in<'a>(alloc: Global, matches: &ArgMatches<'a>) -> Result<Subcommand<'a>, AllocError>
    ensures { IfOk result (spec.Reads (subcommand_rows_of matches.now)) }
{
    if matches.subcommand_matches(SCHEDULE).is_some() {
        return Ok(Subcommand::Schedule);
    }
    if let Some(stress) = matches.subcommand_matches(STRESS) {
        return Ok(Subcommand::Stress(numbers_in(stress)));
    }
    if let Some(words) = matches.subcommand_matches(WORDS) {
        return Ok(Subcommand::Words(words_arguments::arguments_in(words)));
    }
    if let Some(image) = matches.subcommand_matches(IMAGE) {
        return Ok(Subcommand::Image(image_arguments::arguments_in(image)));
    }
    if let Some(range) = matches.subcommand_matches(RANGE) {
        return Ok(Subcommand::Range(range_arguments::arguments_in(range)));
    }
    if let Some(convert) = matches.subcommand_matches(CONVERT) {
        let arguments = convert_arguments::arguments_in(alloc, convert)?;
        return Ok(Subcommand::Convert(arguments));
    }
    if matches.subcommand_matches(ENCODE).is_some() {
        return Ok(Subcommand::Encode);
    }
    if matches.subcommand_matches(TRACE).is_some() {
        return Ok(Subcommand::Trace);
    }
    let Some(decode) = matches.subcommand_matches(DECODE) else {
        return Ok(Subcommand::Replay);
    };
    // A `decode` without its word isn't understood, so each has one.
    match decode.get_str(HEX) {
        Some(word) => Ok(Subcommand::Decode(word)),
        None => Ok(Subcommand::Replay),
    }
}

fn parse<'a>(alloc: Global, words: &'a [&'a str]) -> Result<Subcommand<'a>, Error>
    ensures asked { IfOk result (spec.AskFor (texts words.entry.now)) }
    ensures kinds { FailsBy (fault_of spec.smmuq (texts words.entry.now)) result }
{
    let matches = command_line(alloc)?.try_get_matches_from(words)?;
    Ok(subcommand_in(alloc, &matches)?)
}

/// Returns what the words ask for, without the program's own name.
pub fn understand<'a>(alloc: Global, words: &'a [&'a str]) -> Result<Subcommand<'a>, Misunderstood>
    ensures asked { IfOk result (spec.AskFor (texts words.entry.now)) }
    ensures kinds { spec.FailsOnlyBy (fault_of spec.smmuq (texts words.entry.now)) result }
{
    match parse(alloc, words) {
        Ok(subcommand) => Ok(subcommand),
        Err(error) => Err(Misunderstood::new(alloc, &error)),
    }
}
