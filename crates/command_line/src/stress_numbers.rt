//! The numbers of a stress run.
ghost use Rattle.std.specs.Prelude.{◌≡◌, IfOk, false, codes};
ghost use Rattle.clap.specs.Words.{app_of, found_of, new_app, rows_of, rule_of};
ghost use Rattle.command_line.specs.CommandLine as spec;

use crate::help;
use clap::{Arg, ArgMatches, Command, value_parser};
use std::alloc::{AllocError, Global};

/// The subcommand that runs many senders and an engine at the same time.
pub(crate) const STRESS: &str = "stress";

pub(crate) const LOG2: &str = "log2";

const LOG2_HELP: &str = "The ring has 2^L slots, 1 to 19";

const SENDERS: &str = "senders";

const SENDERS_HELP: &str = "How many senders, 1 to 64";

const BATCHES: &str = "batches";

const BATCHES_HELP: &str = "How many batches each, 1 to 100000";

const TURNS: &str = "turns";

const TURNS_HELP: &str = "How many turns each, 1 to 10000000";

const BARE: &str = "bare";

const BARE_HELP: &str = "Each E-th batch has no CMD_SYNC; 0 for none";

/// The numbers of a stress run, as the command line gives them.
#[derive(Clone, Copy, Debug, PartialEq, Eq)]
pub struct StressNumbers {
    /// The binary logarithm of the ring's slots.
    pub log2: u32,
    /// How many senders there are.
    pub senders: u32,
    /// How many batches each sends.
    pub batches: u32,
    /// How many turns each thread has.
    pub turns: u32,
    /// The last of each `bare` batches of a sender has no CMD_SYNC; with 0 each batch has one.
    pub bare: u32,
}

/// An option whose number is from `low` to `high`.
pub(crate) fn number<'a>(
    alloc: Global,
    name: &'a str,
    value: &'a str,
    low: u32,
    high: u32,
    help: &'a str,
) -> Arg<'a>
    ensures rule { rule_of result ≡ spec.number name.entry.now (spec.between low high) }
    ensures local { result.global ≡ false }
{
    let range = value_parser!(u32).range(i64::from(low)..=i64::from(high));
    Arg::new(alloc, name)
        .long(name)
        .value_name(value)
        .value_parser(range)
        .help(help)
}

/// The subcommand, before its options.
fn without_options<'a>(alloc: Global) -> Command<'a>
    ensures { app_of result ≡ new_app (codes "stress") }
{
    Command::new(alloc, STRESS)
        .about("Runs many senders and an engine at the same time")
        .override_usage(
            "smmuq stress --log2 <L> --senders <S> --batches <B> --turns <T> [--bare <E>]",
        )
        .after_help(help::STRESS)
}

/// The subcommand, with its numbers in their ranges.
pub(crate) fn stress<'a>(alloc: Global) -> Result<Command<'a>, AllocError>
    ensures { IfOk result (λ command. app_of command ≡ spec.stress) }
{
    without_options(alloc)
        .arg(number(alloc, LOG2, "L", 1, 19, LOG2_HELP).required(true))?
        .arg(number(alloc, SENDERS, "S", 1, 64, SENDERS_HELP).required(true))?
        .arg(number(alloc, BATCHES, "B", 1, 100_000, BATCHES_HELP).required(true))?
        .arg(number(alloc, TURNS, "T", 1, 10_000_000, TURNS_HELP).required(true))?
        .arg(number(alloc, BARE, "E", 0, 100_000, BARE_HELP).default_value("0"))
}

/// Returns the number of this name that the words gave. It is required or has a default, so it is there.
pub(crate) fn number_in(matches: &ArgMatches<'_>, name: &str) -> u32
    ensures { spec.ReadsNumber (rows_of (found_of matches.now)) name.now result }
{
    matches.get_one::<u32>(name).unwrap_or(0)
}

/// Returns the numbers that the words gave.
pub(crate) fn numbers_in(matches: &ArgMatches<'_>) -> StressNumbers
    ensures { spec.ReadsNumbers (rows_of (found_of matches.now)) result }
{
    StressNumbers {
        log2: number_in(matches, LOG2),
        senders: number_in(matches, SENDERS),
        batches: number_in(matches, BATCHES),
        turns: number_in(matches, TURNS),
        bare: number_in(matches, BARE),
    }
}
