//! The arguments of `image`.
ghost use Rattle.std.specs.Prelude.{◌≡◌, IfOk, false, codes};
ghost use Rattle.clap.specs.Words.{app_of, found_of, new_app, rows_of, rule_of};
ghost use Rattle.command_line.specs.CommandLine as spec;

use crate::help;
use crate::stress_numbers::{LOG2, number};
use clap::{Arg, ArgAction, ArgMatches, Command};
use std::alloc::{AllocError, Global};

/// The subcommand that shows the memory of a queue.
pub(crate) const IMAGE: &str = "image";

const LOG2_HELP: &str = "The queue has 2^L slots, 1 to 19; else its length says it";

const PROD: &str = "prod";

const PROD_HELP: &str = "SMMU_CMDQ_PROD, decimal or 0x and hexadecimal";

const CONS: &str = "cons";

const CONS_HELP: &str = "SMMU_CMDQ_CONS, with ERR, decimal or 0x and hexadecimal";

const GERROR: &str = "gerror";

const GERROR_HELP: &str = "SMMU_GERROR, to say what holds the queue up";

const GERRORN: &str = "gerrorn";

const GERRORN_HELP: &str = "SMMU_GERRORN, which goes with it";

const ALL: &str = "all";

const ALL_HELP: &str = "Shows all slots, and not those alone that wait";

const HEX: &str = "hex";

const HEX_HELP: &str = "Reads a hex dump, as of xxd, hexdump -C or gdb's x/gx";

/// The arguments of `image`, as the command line gives them.
#[derive(Clone, Copy, Debug, PartialEq, Eq)]
pub struct ImageArguments<'a> {
    /// The binary logarithm of the queue's slots, if it was given.
    pub log2: Option<u32>,
    /// SMMU_CMDQ_PROD, as text.
    pub prod: &'a str,
    /// SMMU_CMDQ_CONS, as text.
    pub cons: &'a str,
    /// SMMU_GERROR, as text, if it was given.
    pub gerror: Option<&'a str>,
    /// SMMU_GERRORN, as text, if it was given.
    pub gerrorn: Option<&'a str>,
    /// Whether all slots are shown.
    pub all: bool,
    /// Whether the memory comes as the text of a hex dump.
    pub hex: bool,
}

/// An option that takes a text.
pub(crate) fn text<'a>(alloc: Global, name: &'a str, value: &'a str, help: &'a str) -> Arg<'a>
    ensures rule { rule_of result ≡ spec.text name.entry.now }
    ensures local { result.global ≡ false }
{
    Arg::new(alloc, name)
        .long(name)
        .value_name(value)
        .help(help)
}

/// An option that is given or not.
pub(crate) fn flag<'a>(alloc: Global, name: &'a str, help: &'a str) -> Arg<'a>
    ensures rule { rule_of result ≡ spec.flag name.entry.now }
    ensures local { result.global ≡ false }
{
    Arg::new(alloc, name)
        .long(name)
        .help(help)
        .action(ArgAction::SetTrue)
}

/// The subcommand, before its options.
fn without_options<'a>(alloc: Global) -> Command<'a>
    ensures { app_of result ≡ new_app (codes "image") }
{
    Command::new(alloc, IMAGE)
        .about("Shows the memory of a queue, by its registers")
        .override_usage("smmuq image --prod <P> --cons <C> [OPTIONS] < QUEUE")
        .after_help(help::IMAGE)
}

/// The subcommand, with the registers PROD and CONS, and how many slots there are.
fn of_queue<'a>(alloc: Global) -> Result<Command<'a>, AllocError>
    ensures { IfOk result (λ command. app_of command ≡ spec.image_of_queue) }
{
    without_options(alloc)
        .arg(number(alloc, LOG2, "L", 1, 19, LOG2_HELP))?
        .arg(text(alloc, PROD, "P", PROD_HELP).required(true))?
        .arg(text(alloc, CONS, "C", CONS_HELP).required(true))
}

/// The same with the registers of errors.
fn with_errors<'a>(alloc: Global) -> Result<Command<'a>, AllocError>
    ensures { IfOk result (λ command. app_of command ≡ spec.image_with_errors) }
{
    of_queue(alloc)?
        .arg(text(alloc, GERROR, "G", GERROR_HELP))?
        .arg(text(alloc, GERRORN, "N", GERRORN_HELP))
}

/// The subcommand, with its options.
pub(crate) fn image<'a>(alloc: Global) -> Result<Command<'a>, AllocError>
    ensures { IfOk result (λ command. app_of command ≡ spec.image) }
{
    with_errors(alloc)?
        .arg(flag(alloc, ALL, ALL_HELP))?
        .arg(flag(alloc, HEX, HEX_HELP))
}

/// Returns the text of this name that the words gave. It is required, so it is there.
pub(crate) fn text_in<'a>(matches: &ArgMatches<'a>, name: &str) -> &'a str
    ensures { spec.ReadsText (rows_of (found_of matches.now)) name.now result.now }
{
    matches.get_str(name).unwrap_or("")
}

pub(crate) fn flag_in(matches: &ArgMatches<'_>, name: &str) -> bool
    ensures { spec.IsFlag name.now (rows_of (found_of matches.now)) result }
{
    matches.get_flag(name)
}

/// Returns the number of this name, if the words gave it.
pub(crate) fn given_number(matches: &ArgMatches<'_>, name: &str) -> Option<u32>
    ensures { spec.MayReadNumber (rows_of (found_of matches.now)) name.now result }
{
    matches.get_one::<u32>(name)
}

/// Returns the text of this name, if the words gave it.
pub(crate) fn given_text<'a>(matches: &ArgMatches<'a>, name: &str) -> Option<&'a str>
    ensures { spec.MayReadText (rows_of (found_of matches.now)) name.now result }
{
    matches.get_str(name)
}

/// Returns what the words gave.
pub(crate) fn arguments_in<'a>(matches: &ArgMatches<'a>) -> ImageArguments<'a>
    ensures { spec.ReadsImage (rows_of (found_of matches.now)) result }
{
    ImageArguments {
        log2: given_number(matches, LOG2),
        prod: text_in(matches, PROD),
        cons: text_in(matches, CONS),
        gerror: given_text(matches, GERROR),
        gerrorn: given_text(matches, GERRORN),
        all: flag_in(matches, ALL),
        hex: flag_in(matches, HEX),
    }
}
