//! The answers to the steps of a schedule.
ghost use Rattle.std.specs.Prelude.{◌≡◌, ◌++◌, OnOk, codes, decimal, string_bytes};
ghost use Rattle.ringcore.specs.machine.FaultNames.{label_of};
ghost use Rattle.script.specs.Outcome.{fault_line};
ghost use Rattle.schedule.specs.Texts.{control_text, flags_text, number_text, ready_text, word_name, flags_of, seen_text, answer_line};
ghost use Rattle.schedule.specs.Steps.{step_of};

use crate::request::Asked;
use qindex::{Control, Index};
use ringcore::{Seen, StepFault};
use std::alloc::AllocError;
use std::fmt::Write;

fn say_control(control: &Control, reply: &mut String) -> Result<(), AllocError>
    ensures { OnOk result (string_bytes reply.new
        ≡ string_bytes reply.old ++ control_text control.now) }
{
    let (prod, cons) = (control.prod.get(), control.cons.get());
    if control.closed {
        write!(reply, "{prod} {cons} closed")
    } else {
        write!(reply, "{prod} {cons} open")
    }
}

fn say_flags(count: u32, flags: u64, reply: &mut String) -> Result<(), AllocError>
    ensures { OnOk result (string_bytes reply.new
        ≡ string_bytes reply.old ++ flags_text count flags) }
{
    let mut rest = flags;
    'flags: for _ in 0..count {
        let flag = rest % 2;
        write!(reply, "{flag}")?;
        rest /= 2;
    }
    Ok(())
}

fn say_reserved(first: Index, number: Option<u32>, reply: &mut String) -> Result<(), AllocError>
    ensures { OnOk result (string_bytes reply.new
        ≡ string_bytes reply.old ++ (codes "reserved " ++ decimal first.number
        ++ number_text number)) }
{
    let first = first.get();
    match number {
        Some(number) => write!(reply, "reserved {first} number {number}"),
        None => write!(reply, "reserved {first} bare"),
    }
}

fn say_ready(is_counted: bool, found: u32, reply: &mut String) -> Result<(), AllocError>
    ensures { OnOk result (string_bytes reply.new
        ≡ string_bytes reply.old ++ ready_text is_counted found) }
{
    if found == 0 {
        reply.push_str("not ready")
    } else if is_counted {
        write!(reply, "ready {found}")
    } else {
        reply.push_str("ready")
    }
}

/// The name of the control word in the answer to a step.
fn word_name(asked: &Asked) -> &'static str
    ensures { result.now ≡ word_name (step_of asked.now) }
{
    match asked {
        Asked::Advance { .. } => "advanced ",
        Asked::Close { .. } => "closed ",
        _ => "control ",
    }
}

/// How many flags a step turns.
fn flags_of(asked: &Asked) -> u32
    ensures { result ≡ flags_of (step_of asked.now) }
{
    match asked {
        Asked::Flip { count, .. } => *count,
        _ => 0,
    }
}

fn say_seen(
    name: &str,
    flags: u32,
    is_counted: bool,
    seen: Seen,
    reply: &mut String,
) -> Result<(), AllocError>
    ensures { OnOk result (string_bytes reply.new
        ≡ string_bytes reply.old ++ seen_text name.now flags is_counted seen) }
{
    match seen {
        Seen::Word(control) => {
            reply.push_str(name)?;
            say_control(&control, reply)
        }
        Seen::Reserved { first, number } => say_reserved(first, number, reply),
        Seen::Lost(found) => {
            reply.push_str("lost ")?;
            say_control(&found, reply)
        }
        Seen::Written => reply.push_str("written"),
        Seen::Flipped(new_flags) => {
            reply.push_str("flipped ")?;
            say_flags(flags, new_flags, reply)
        }
        Seen::Ready(found) => say_ready(is_counted, found, reply),
        Seen::Half(word) => write!(reply, "word 0x{word:x}"),
        Seen::Acknowledged => reply.push_str("acknowledged"),
        Seen::Done(number) => write!(reply, "done {number}"),
    }
}

/// Appends what a step was answered, as a line.
pub(crate) fn say_answer(
    asked: &Asked,
    is_counted: bool,
    seen: Seen,
    reply: &mut String,
) -> Result<(), AllocError>
    ensures { OnOk result (string_bytes reply.new
        ≡ string_bytes reply.old ++ answer_line (step_of asked.now) is_counted seen) }
{
    say_seen(word_name(asked), flags_of(asked), is_counted, seen, reply)?;
    reply.push_str("\n")
}

/// Appends the fault of a step, which ends the run.
pub(crate) fn say_step_fault(
    number: u64,
    fault: StepFault,
    reply: &mut String,
) -> Result<(), AllocError>
    ensures { OnOk result (string_bytes reply.new
        ≡ string_bytes reply.old ++ fault_line number (label_of fault)) }
{
    let label = fault.label();
    write!(reply, "line {number}: {label}\n")
}
