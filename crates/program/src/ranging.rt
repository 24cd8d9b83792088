//! The subcommand that writes the commands of an invalidation.
ghost use Rattle.std.specs.Prelude.{◌≡◌};
ghost use Rattle.program.specs.Ranging.{ExitsAsRange, WritesRange, range_asked_of, regime_of};

use crate::telling::{print, tell_of_memory};
use crate::watched::Watched;
use command_line::RangeArguments;
use ranges::{Asked, Regime, range_text};
use script::Status;
use std::alloc::Global;
use std::io::Write;

fn regime(el2: bool, stage2: bool) -> Regime
    ensures { result ≡ regime_of el2 stage2 }
{
    match (el2, stage2) {
        (true, _) => Regime::Hypervisor,
        (false, true) => Regime::Stage2,
        (false, false) => Regime::Stage1,
    }
}

/// Returns the invalidation that the command line gives.
fn asked<'a>(arguments: &RangeArguments<'a>) -> Asked<'a>
    ensures { result ≡ range_asked_of arguments.now }
{
    Asked {
        regime: regime(arguments.el2, arguments.stage2),
        vmid: arguments.vmid,
        asid: arguments.asid,
        address: arguments.address,
        length: arguments.length,
        granule: arguments.granule,
        leaf: arguments.leaf,
        level: arguments.level,
        range_invalidation: !arguments.no_ril,
        most_commands: arguments.limit,
    }
}

/// Writes the commands that are asked for, or the line of a fault.
fn write_range<W: Write>(alloc: Global, asked: &Asked<'_>, output: &mut Watched<W>) -> Status
    ensures { WritesRange result asked.now output.old output.new }
{
    match range_text(alloc, asked) {
        Ok((text, is_good)) => match print(text.as_str(), output) {
            Ok(()) if is_good => Status::Good,
            Ok(()) => Status::Refused,
            Err(_) => Status::WriteFailed,
        },
        Err(_) => tell_of_memory(output),
    }
}

/// Writes the commands that the command line asks for, and returns the exit status.
pub(crate) fn range_to_exit<W: Write>(
    alloc: Global,
    arguments: &RangeArguments<'_>,
    output: &mut Watched<W>,
) -> u8
    ensures { ExitsAsRange result (range_asked_of arguments.now) output.old output.new }
{
    write_range(alloc, &asked(arguments), output).exit_status()
}
