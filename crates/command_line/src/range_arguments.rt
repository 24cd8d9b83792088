//! The arguments of `range`.
ghost use Rattle.std.specs.Prelude.{◌≡◌, IfOk, codes};
ghost use Rattle.clap.specs.Words.{app_of, found_of, new_app, rows_of};
ghost use Rattle.command_line.specs.CommandLine as spec;

use crate::help;
use crate::image_arguments::{flag, flag_in, given_number, given_text, text, text_in};
use crate::stress_numbers::number;
use clap::{ArgMatches, Command};
use std::alloc::{AllocError, Global};

/// The subcommand that writes the commands of an invalidation.
pub(crate) const RANGE: &str = "range";

const VMID: &str = "vmid";

const VMID_HELP: &str = "The virtual machine, 16 bits";

const ASID: &str = "asid";

const ASID_HELP: &str = "The address space, 16 bits; else all of them";

const EL2: &str = "el2";

const EL2_HELP: &str = "The hypervisor's, in place of a virtual machine's";

const STAGE2: &str = "stage2";

const STAGE2_HELP: &str = "Stage 2 of the virtual machine, in place of stage 1";

const ADDRESS: &str = "address";

const ADDRESS_HELP: &str = "The first byte, at any alignment";

const LENGTH: &str = "length";

const LENGTH_HELP: &str = "How many bytes";

const GRANULE: &str = "granule";

const GRANULE_HELP: &str = "The tables' granule, 4K, 16K or 64K; else 4K";

const LEAF: &str = "leaf";

const LEAF_HELP: &str = "Only last-level entries changed";

const LEVEL: &str = "level";

const LEVEL_HELP: &str = "Their level, 1 to 3, if it is known";

const NO_RIL: &str = "no-ril";

const NO_RIL_HELP: &str = "The SMMU has no invalidation by ranges";

const LIMIT: &str = "limit";

const LIMIT_HELP: &str = "At most N commands by address, 0 to 100000; else 512";

/// The arguments of `range`, as the command line gives them.
#[derive(Clone, Copy, Debug, PartialEq, Eq)]
pub struct RangeArguments<'a> {
    /// The VMID, as text, if it was given.
    pub vmid: Option<&'a str>,
    /// The ASID, as text, if it was given.
    pub asid: Option<&'a str>,
    /// Whether the hypervisor's translations are meant.
    pub el2: bool,
    /// Whether stage 2 is meant.
    pub stage2: bool,
    /// The first byte's address, as text.
    pub address: &'a str,
    /// How many bytes, as text.
    pub length: &'a str,
    /// The translation granule, as text, if it was given.
    pub granule: Option<&'a str>,
    /// Whether only last-level entries changed.
    pub leaf: bool,
    /// Their level, 1 to 3, if it was given.
    pub level: Option<u32>,
    /// Whether the SMMU lacks range invalidation.
    pub no_ril: bool,
    /// The most commands by address, 0 to 100,000, if it was given.
    pub limit: Option<u32>,
}

/// The subcommand, before its options.
fn without_options<'a>(alloc: Global) -> Command<'a>
    ensures { app_of result ≡ new_app (codes "range") }
{
    Command::new(alloc, RANGE)
        .about("Writes the commands that invalidate a range of addresses")
        .override_usage(
            "smmuq range <--vmid <V> | --el2 | --stage2 --vmid <V>> --address <X> --length <N> [OPTIONS]",
        )
        .after_help(help::RANGE)
}

/// The subcommand, with what says whose translations are meant.
fn of_space<'a>(alloc: Global) -> Result<Command<'a>, AllocError>
    ensures { IfOk result (λ command. app_of command ≡ spec.range_of_space) }
{
    without_options(alloc)
        .arg(text(alloc, VMID, "V", VMID_HELP))?
        .arg(text(alloc, ASID, "A", ASID_HELP))?
        .arg(flag(alloc, EL2, EL2_HELP))?
        .arg(flag(alloc, STAGE2, STAGE2_HELP))
}

/// The same with the bytes.
fn of_bytes<'a>(alloc: Global) -> Result<Command<'a>, AllocError>
    ensures { IfOk result (λ command. app_of command ≡ spec.range_of_bytes) }
{
    of_space(alloc)?
        .arg(text(alloc, ADDRESS, "X", ADDRESS_HELP).required(true))?
        .arg(text(alloc, LENGTH, "N", LENGTH_HELP).required(true))
}

/// The same with what is known of the translation tables.
fn of_tables<'a>(alloc: Global) -> Result<Command<'a>, AllocError>
    ensures { IfOk result (λ command. app_of command ≡ spec.range_of_tables) }
{
    of_bytes(alloc)?
        .arg(text(alloc, GRANULE, "G", GRANULE_HELP))?
        .arg(flag(alloc, LEAF, LEAF_HELP))?
        .arg(number(alloc, LEVEL, "T", 1, 3, LEVEL_HELP))
}

/// The subcommand, with its options.
pub(crate) fn range<'a>(alloc: Global) -> Result<Command<'a>, AllocError>
    ensures { IfOk result (λ command. app_of command ≡ spec.range) }
{
    of_tables(alloc)?
        .arg(flag(alloc, NO_RIL, NO_RIL_HELP))?
        .arg(number(alloc, LIMIT, "N", 0, 100_000, LIMIT_HELP))
}

/// Returns what the words gave.
pub(crate) fn arguments_in<'a>(matches: &ArgMatches<'a>) -> RangeArguments<'a>
    ensures { spec.ReadsRange (rows_of (found_of matches.now)) result }
{
    RangeArguments {
        vmid: given_text(matches, VMID),
        asid: given_text(matches, ASID),
        el2: flag_in(matches, EL2),
        stage2: flag_in(matches, STAGE2),
        address: text_in(matches, ADDRESS),
        length: text_in(matches, LENGTH),
        granule: given_text(matches, GRANULE),
        leaf: flag_in(matches, LEAF),
        level: given_number(matches, LEVEL),
        no_ril: flag_in(matches, NO_RIL),
        limit: given_number(matches, LIMIT),
    }
}
