//! The lines of a report.
ghost use Rattle.std.specs.Prelude.{◌≡◌, ◌++◌, OnOk, string_bytes};
ghost use Rattle.stress.specs.ReportText.{number_line, closed_line, sender_line, sender_lines, plan_lines, count_lines, end_lines, report_text};

use crate::report::Report;
use std::alloc::AllocError;
use std::fmt::Write;

fn say_number(name: &str, number: u64, text: &mut String) -> Result<(), AllocError>
    ensures { OnOk result (string_bytes text.new
        ≡ string_bytes text.old ++ number_line name.now number) }
{
    write!(text, "{name} {number}\n")
}

fn say_plan(report: &Report, text: &mut String) -> Result<(), AllocError>
    ensures { OnOk result (string_bytes text.new ≡ string_bytes text.old ++ plan_lines report.now) }
{
    let plan = report.plan();
    say_number("senders", u64::from(plan.senders()), text)?;
    let batches = u64::from(plan.senders()) * u64::from(plan.batches());
    say_number("batches", batches, text)
}

fn say_counts(report: &Report, text: &mut String) -> Result<(), AllocError>
    ensures { OnOk result (string_bytes text.new
        ≡ string_bytes text.old ++ count_lines report.now) }
{
    let counts = report.counts();
    say_number("commands", report.summary().reserved(), text)?;
    say_number("syncs", counts.syncs(), text)?;
    say_number("applied", counts.applied(), text)?;
    say_number("replaced", counts.replaced(), text)?;
    say_number("removed", counts.removed(), text)
}

fn say_closed(closed: bool, text: &mut String) -> Result<(), AllocError>
    ensures { OnOk result (string_bytes text.new ≡ string_bytes text.old ++ closed_line closed) }
{
    let closed = if closed { "yes" } else { "no" };
    write!(text, "closed {closed}\n")
}

fn say_end(report: &Report, text: &mut String) -> Result<(), AllocError>
    ensures { OnOk result (string_bytes text.new ≡ string_bytes text.old ++ end_lines report.now) }
{
    let summary = report.summary();
    say_number("entries", report.entries() as u64, text)?;
    say_number(
        "left",
        summary.reserved().saturating_sub(summary.taken()),
        text,
    )?;
    say_closed(summary.closed(), text)
}

fn say_sender(batches: u32, number: usize, found: u32, text: &mut String) -> Result<(), AllocError>
    ensures { OnOk result (string_bytes text.new
        ≡ string_bytes text.old ++ sender_line batches number found) }
{
    write!(text, "sender {number} batches {batches} done {found}\n")
}

fn say_senders(report: &Report, text: &mut String) -> Result<(), AllocError>
    ensures { OnOk result (string_bytes text.new
        ≡ string_bytes text.old ++ sender_lines report.now.plan.batches 0 report.now.done) }
{
    let batches = report.plan().batches();
    let done = report.done();
    for number in 0..done.len() {
        say_sender(batches, number, done[number], text)?;
    }
    Ok(())
}

/// Appends the plan's numbers, what was counted, how it ended, and a line for each sender.
pub(crate) fn say_report(report: &Report, text: &mut String) -> Result<(), AllocError>
    ensures { OnOk result (string_bytes text.new
        ≡ string_bytes text.old ++ report_text report.now) }
{
    say_plan(report, text)?;
    say_counts(report, text)?;
    say_end(report, text)?;
    say_senders(report, text)
}
