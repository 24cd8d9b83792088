//! The answers to the lines of the unit.
ghost use Rattle.std.specs.Prelude.{◌≡◌, ◌++◌, OnOk, flat_map, string_bytes, codes, decimal};
ghost use Rattle.engine.specs.declared.answer.StepAnswer.TheVariants.{Applied};
ghost use Rattle.replay.specs.texts.Entries.{entry_line};
ghost use Rattle.replay.specs.texts.UnitLines.{step_text, acknowledged_text, register_line, errors_line, registers_text, totals_line, dump_text};

use super::entries::say_entry;
use caches::Entry;
use cmdcodec::Command;
use engine::{Counts, Registers, StepAnswer};
use std::alloc::AllocError;
use std::fmt::Write;

/// The end of the answer for a command that removed nothing, in one piece: most remove nothing.
fn none_removed_text() -> &'static str
    ensures { result.now ≡ codes " removed=" ++ decimal 0 ++ codes "\n" }
{
    " removed=0\n"
}

/// Appends that a command was applied.
fn say_applied(command: &Command, removed: u32, reply: &mut String) -> Result<(), AllocError>
    ensures { OnOk result (string_bytes reply.new
        ≡ string_bytes reply.old ++ step_text (Applied command.now removed)) }
{
    if removed == 0 {
        write!(reply, "applied {command}")?;
        reply.push_str(none_removed_text())
    } else {
        write!(reply, "applied {command} removed={removed}\n")
    }
}

/// Appends what a step did, as a line.
pub fn say_step(answer: &StepAnswer, reply: &mut String) -> Result<(), AllocError>
    ensures { OnOk result (string_bytes reply.new
        ≡ string_bytes reply.old ++ step_text answer.now) }
{
    match answer {
        StepAnswer::Empty => reply.push_str("empty\n"),
        StepAnswer::Drained => reply.push_str("drained\n"),
        StepAnswer::Unwritten => reply.push_str("unwritten\n"),
        StepAnswer::Applied { command, removed } => say_applied(command, *removed, reply),
        StepAnswer::Stopped(ill) => {
            let label = ill.label();
            write!(reply, "stopped {label}\n")
        }
        StepAnswer::Replaced(ill) => {
            let label = ill.label();
            write!(reply, "replaced {label}\n")
        }
        StepAnswer::StillStopped => reply.push_str("still stopped\n"),
        StepAnswer::Exhausted => reply.push_str("exhausted\n"),
    }
}

/// Appends the answer to an acknowledgement that wasn't refused.
pub(crate) fn say_acknowledged(reply: &mut String) -> Result<(), AllocError>
    ensures { OnOk result (string_bytes reply.new ≡ string_bytes reply.old ++ acknowledged_text) }
{
    reply.push_str("acknowledged\n")
}

fn say_register(name: &str, value: u32, reply: &mut String) -> Result<(), AllocError>
    ensures { OnOk result (string_bytes reply.new
        ≡ string_bytes reply.old ++ register_line name.now value) }
{
    write!(reply, "{name} 0x{value:08x}\n")
}

fn say_errors(registers: &Registers, reply: &mut String) -> Result<(), AllocError>
    ensures { OnOk result (string_bytes reply.new
        ≡ string_bytes reply.old ++ errors_line registers.now) }
{
    let (gerror, gerrorn) = (registers.gerror, registers.gerrorn);
    write!(reply, "gerror {gerror} gerrorn {gerrorn}\n")
}

fn say_registers(registers: &Registers, reply: &mut String) -> Result<(), AllocError>
    ensures { OnOk result (string_bytes reply.new
        ≡ string_bytes reply.old ++ registers_text registers.now) }
{
    say_register("prod", registers.prod, reply)?;
    say_register("cons", registers.cons, reply)?;
    say_errors(registers, reply)
}

fn say_totals(counts: &Counts, reply: &mut String) -> Result<(), AllocError>
    ensures { OnOk result (string_bytes reply.new
        ≡ string_bytes reply.old ++ totals_line counts.now) }
{
    let (taken, applied, replaced) = (counts.taken(), counts.applied(), counts.replaced());
    write!(reply, "taken {taken} applied {applied} replaced {replaced}")?;
    let (syncs, removed) = (counts.syncs(), counts.removed());
    write!(reply, " syncs {syncs} removed {removed}\n")
}

fn say_entries(entries: &[Entry], reply: &mut String) -> Result<(), AllocError>
    ensures { OnOk result (string_bytes reply.new
        ≡ string_bytes reply.old ++ flat_map entry_line entries.now) }
{
    'entries: for entry in entries {
        say_entry(entry, reply)?;
    }
    Ok(())
}

/// Appends the registers, the totals, and the entries in the order given.
pub(crate) fn say_dump(
    registers: &Registers,
    counts: &Counts,
    entries: &[Entry],
    reply: &mut String,
) -> Result<(), AllocError>
    ensures { OnOk result (string_bytes reply.new
        ≡ string_bytes reply.old ++ dump_text registers.now counts.now entries.now) }
{
    say_registers(registers, reply)?;
    say_totals(counts, reply)?;
    say_entries(entries, reply)?;
    reply.push_str("end\n")
}
