//! Texts of steps, one a line, each with its answer after ` = `. A line that begins with `#` is a comment.
use crate::ringcore_tests::machine::steps::{next_number, step};
use qindex::Control;
use ringcore::{Core, Seen, Step};
use std::alloc::Global;
use std::process::Abort;

fn word(alloc: Global, control: &Control) -> Option<String> {
    let (prod, cons) = (control.prod.get(), control.cons.get());
    let state = if control.closed { "closed" } else { "open" };
    format!(in alloc; "{state} {prod} {cons}").ok()
}

fn lost(alloc: Global, control: &Control) -> Option<String> {
    let (prod, cons) = (control.prod.get(), control.cons.get());
    let end = if control.closed { " closed" } else { "" };
    format!(in alloc; "lost {prod} {cons}{end}").ok()
}

fn reserved(alloc: Global, first: u32, number: Option<u32>) -> Option<String> {
    match number {
        Some(number) => format!(in alloc; "reserved {first} {number}").ok(),
        None => format!(in alloc; "bare {first}").ok(),
    }
}

fn told(alloc: Global, seen: Seen) -> Option<String> {
    match seen {
        Seen::Word(control) => word(alloc, &control),
        Seen::Reserved { first, number } => reserved(alloc, first.get(), number),
        Seen::Lost(control) => lost(alloc, &control),
        Seen::Written => String::from_str(alloc, "written").ok(),
        Seen::Flipped(flags) => format!(in alloc; "flipped {flags:#x}").ok(),
        Seen::Ready(found) => format!(in alloc; "ready {found}").ok(),
        Seen::Half(word) => format!(in alloc; "half {word:#x}").ok(),
        Seen::Acknowledged => String::from_str(alloc, "acknowledged").ok(),
        Seen::Done(number) => format!(in alloc; "done {number}").ok(),
    }
}

/// Whether both halves of all slots `from..to` are written, by sender 0.
fn writes(core: &mut Core, from: u32, to: u32) -> bool {
    for slot in from..to {
        for half in 0..2 {
            let write = Step::Write {
                sender: 0,
                slot,
                half,
            };
            if core.apply(write) != Ok(Seen::Written) {
                return false;
            }
        }
    }
    true
}

/// Whether both halves of all slots `from..to` may be read.
fn reads(core: &mut Core, from: u32, to: u32) -> bool {
    for slot in from..to {
        for half in 0..2 {
            if core.apply(Step::Read { slot, half }).is_err() {
                return false;
            }
        }
    }
    true
}

/// The answer if all slots in a range were written or read.
fn all(alloc: Global, core: &mut Core, name: &str, slots: &str) -> Option<String> {
    let mut words = slots.split_whitespace();
    let (from, to) = (next_number(&mut words)?, next_number(&mut words)?);
    if name == "writes" && writes(core, from, to) {
        String::from_str(alloc, "written").ok()
    } else if name == "reads" && reads(core, from, to) {
        String::from_str(alloc, "read").ok()
    } else {
        None
    }
}

fn answer(alloc: Global, core: &mut Core, asked: &str) -> Option<String> {
    match asked.split_once(" ") {
        None => word(alloc, &core.control()),
        Some((name, slots)) if name == "writes" || name == "reads" => all(alloc, core, name, slots),
        Some(_) => match core.apply(step(asked)?) {
            Ok(seen) => told(alloc, seen),
            Err(fault) => String::from_str(alloc, fault.label()).ok(),
        },
    }
}

/// Takes the steps of a text, and expects the answer after each.
pub fn expect_answers<R: AllocGlobal + Abort>(rt: &R, core: &mut Core, text: &str) {
    for line in text.lines() {
        if !line.starts_with("#") {
            let (asked, wanted) = line.split_once(" = ").unwrap_or((line, ""));
            let found = answer(rt.alloc(), core, asked).expect(rt, line);
            assert!(rt; found.as_str() == wanted, "{line}, not {found}");
        }
    }
}
