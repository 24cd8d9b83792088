//! The arguments of `words`.
ghost use Rattle.std.specs.Prelude.{◌≡◌, IfOk, codes};
ghost use Rattle.clap.specs.Words.{app_of, found_of, new_app, rows_of};
ghost use Rattle.command_line.specs.CommandLine as spec;

use crate::help;
use crate::image_arguments::{flag, flag_in};
use clap::{ArgMatches, Command};
use std::alloc::{AllocError, Global};

/// The subcommand that says what lines of words mean.
pub(crate) const WORDS: &str = "words";

const LOG: &str = "log";

const LOG_HELP: &str = "Reads a kernel's log, two lines a command";

const HEX: &str = "hex";

const HEX_HELP: &str = "Reads a hex dump, as of xxd, hexdump -C or gdb's x/gx";

/// The arguments of `words`, as the command line gives them.
#[derive(Clone, Copy, Debug, PartialEq, Eq)]
pub struct WordsArguments {
    /// Whether the lines are a kernel's log.
    pub log: bool,
    /// Whether they are those of a hex dump.
    pub hex: bool,
}

/// The subcommand, before its options.
fn without_options<'a>(alloc: Global) -> Command<'a>
    ensures { app_of result ≡ new_app (codes "words") }
{
    Command::new(alloc, WORDS)
        .about("Says what each line of words means as a command")
        .override_usage("smmuq words [--log | --hex] < WORDS")
        .after_help(help::WORDS)
}

/// The subcommand, with its options.
pub(crate) fn words<'a>(alloc: Global) -> Result<Command<'a>, AllocError>
    ensures { IfOk result (λ command. app_of command ≡ spec.words) }
{
    without_options(alloc)
        .arg(flag(alloc, LOG, LOG_HELP))?
        .arg(flag(alloc, HEX, HEX_HELP))
}

/// Returns what the words gave.
pub(crate) fn arguments_in(matches: &ArgMatches<'_>) -> WordsArguments
    ensures { spec.ReadsWords (rows_of (found_of matches.now)) result }
{
    WordsArguments {
        log: flag_in(matches, LOG),
        hex: flag_in(matches, HEX),
    }
}
