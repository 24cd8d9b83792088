//! The arguments of `convert`.
ghost use Rattle.std.specs.Prelude.{◌≡◌, IfOk, false, codes};
ghost use Rattle.clap.specs.Words.{app_of, found_of, new_app, rows_of, rule_of};
ghost use Rattle.command_line.specs.CommandLine as spec;

use crate::help;
use crate::image_arguments::{flag, flag_in, given_number, text, text_in};
use crate::stress_numbers::number;
use clap::{Arg, ArgAction, ArgMatches, Command};
use std::alloc::{AllocError, Global};

/// The subcommand that converts a guest's commands.
pub(crate) const CONVERT: &str = "convert";

const VMID: &str = "vmid";

const VMID_HELP: &str = "The guest's VMID on the host";

const STREAM: &str = "stream";

const STREAM_HELP: &str = "GUEST=HOST or GUEST=HOST,ats: a stream of the guest";

const NO_RANGE: &str = "no-range";

const NO_RANGE_HELP: &str = "The host's SMMU has no invalidation by ranges";

const NO_ATS: &str = "no-ats";

const NO_ATS_HELP: &str = "It has no ATS";

const SHORT_IDS: &str = "short-ids";

const SHORT_IDS_HELP: &str = "Its VMIDs and ASIDs have 8 bits";

const SUBSTREAM_BITS: &str = "substream-bits";

const SUBSTREAM_BITS_HELP: &str = "The bits of its substreams, 0 to 20; else 20";

/// The arguments of `convert`, as the command line gives them.
#[derive(Drop)]
pub struct ConvertArguments<'a> {
    /// The VMID, as text.
    pub vmid: &'a str,
    /// The streams, as text, in the order in which they were given.
    pub streams: Vec<&'a str>,
    /// Whether the host's SMMU lacks range invalidation.
    pub no_range: bool,
    /// Whether it lacks ATS.
    pub no_ats: bool,
    /// Whether its VMIDs and ASIDs have 8 bits.
    pub short_ids: bool,
    /// The bits of its substreams, if they were given.
    pub substream_bits: Option<u32>,
}

/// An option that takes a text, and may be given again.
fn repeated<'a>(alloc: Global, name: &'a str, value: &'a str, help: &'a str) -> Arg<'a>
    ensures rule { rule_of result ≡ spec.repeated name.entry.now }
    ensures local { result.global ≡ false }
{
    text(alloc, name, value, help).action(ArgAction::Append)
}

/// The subcommand, before its options.
fn without_options<'a>(alloc: Global) -> Command<'a>
    ensures { app_of result ≡ new_app (codes "convert") }
{
    Command::new(alloc, CONVERT)
        .about("Converts a guest's commands for the host's queue")
        .override_usage("smmuq convert --vmid <V> [--stream <GUEST=HOST>].. [OPTIONS] < WORDS")
        .after_help(help::CONVERT)
}

/// The subcommand, with what says which guest it is.
fn of_guest<'a>(alloc: Global) -> Result<Command<'a>, AllocError>
    ensures { IfOk result (λ command. app_of command ≡ spec.convert_of_guest) }
{
    without_options(alloc)
        .arg(text(alloc, VMID, "V", VMID_HELP).required(true))?
        .arg(repeated(alloc, STREAM, "GUEST=HOST", STREAM_HELP))
}

/// The same with what the host's SMMU lacks.
fn without_features<'a>(alloc: Global) -> Result<Command<'a>, AllocError>
    ensures { IfOk result (λ command. app_of command ≡ spec.convert_without_features) }
{
    of_guest(alloc)?
        .arg(flag(alloc, NO_RANGE, NO_RANGE_HELP))?
        .arg(flag(alloc, NO_ATS, NO_ATS_HELP))
}

/// The subcommand, with its options.
pub(crate) fn convert<'a>(alloc: Global) -> Result<Command<'a>, AllocError>
    ensures { IfOk result (λ command. app_of command ≡ spec.convert) }
{
    without_features(alloc)?
        .arg(flag(alloc, SHORT_IDS, SHORT_IDS_HELP))?
        .arg(number(alloc, SUBSTREAM_BITS, "N", 0, 20, SUBSTREAM_BITS_HELP))
}

/// Returns all texts of this name that the words gave, in order.
fn texts_in<'a>(
    alloc: Global,
    matches: &ArgMatches<'a>,
    name: &str,
) -> Result<Vec<&'a str>, AllocError>
    ensures { IfOk result (λ texts.
        spec.ReadsTexts (rows_of (found_of matches.now)) name.now texts.items) }
{
    match matches.get_strs(name) {
        Some(texts) => Vec::from_slice(alloc, texts),
        None => Ok(Vec::new(alloc)),
    }
}

/// Returns what the words gave.
pub(crate) fn arguments_in<'a>(
    alloc: Global,
    matches: &ArgMatches<'a>,
) -> Result<ConvertArguments<'a>, AllocError>
    ensures { IfOk result (spec.ReadsConvert (rows_of (found_of matches.now))) }
{
    Ok(ConvertArguments {
        vmid: text_in(matches, VMID),
        streams: texts_in(alloc, matches, STREAM)?,
        no_range: flag_in(matches, NO_RANGE),
        no_ats: flag_in(matches, NO_ATS),
        short_ids: flag_in(matches, SHORT_IDS),
        substream_bits: given_number(matches, SUBSTREAM_BITS),
    })
}
