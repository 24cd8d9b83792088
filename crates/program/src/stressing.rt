//! The subcommand that runs many senders and an engine at the same time.
ghost use Rattle.std.specs.Prelude.{IfOk};
ghost use Rattle.stress.specs.Reports.{IsAsPlanned, IsOfARun};
ghost use Rattle.stress.specs.Plans.{IsPlan};
ghost use Rattle.program.specs.Stressing.{ExitsAsStress, IsOfPlan, Stresses, plan_of};

use crate::telling::{print, print_line, tell_of_memory};
use crate::watched::Watched;
use command_line::StressNumbers;
use script::Status;
use std::alloc::Global;
use std::io::Write;
use std::thread::Threads;
use stress::{NoGate, Plan, Report, StressFault, run_all};

/// Tells the result of a run: the lines of its report, or why there is none.
fn tell_run<O: Write>(
    alloc: Global,
    ran: &Result<Report, StressFault>,
    output: &mut Watched<O>,
) -> Status
    ensures { Stresses result ran.now output.old output.new }
{
    let told = match ran {
        Ok(report) => report.text(alloc),
        Err(fault) => Err(*fault),
    };
    let (printed, status) = match told {
        Ok(text) => (print(text.as_str(), output), Status::Good),
        Err(StressFault::NoMemory) => return tell_of_memory(output),
        Err(StressFault::Unfinished) => (print_line("unfinished", output), Status::Refused),
    };
    match printed {
        Ok(()) => status,
        Err(_) => Status::WriteFailed,
    }
}

/// Runs a plan of these numbers, and returns the exit status.
pub(crate) fn stress_to_exit<A: Threads + AllocGlobal + Sync, O: Write>(
    rt: &A,
    numbers: StressNumbers,
    output: &mut Watched<O>,
) -> u8
    requires { IsPlan (plan_of numbers) }
    ensures { ExitsAsStress result (plan_of numbers) output.old output.new }
{
    let StressNumbers {
        log2,
        senders,
        batches,
        turns,
        bare,
    } = numbers;
    let plan = Plan::with_bare(log2, senders, batches, turns, bare).unwrap();
    let ran = run_all(rt, &plan, &NoGate);
    tell_run(rt.alloc(), &ran, output).exit_status()
}
