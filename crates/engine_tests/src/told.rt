//! Answers of the engine as texts.
use caches::Entry;
use cmdcodec::{Command, Ill};
use engine::{Counts, Registers, RunAnswer, StepAnswer};
use std::alloc::Global;

fn word(alloc: Global, word: &str) -> Option<String> {
    String::from_str(alloc, word).ok()
}

fn stopped(alloc: Global, ill: Ill) -> Option<String> {
    format!(in alloc; "stopped {ill}").ok()
}

fn replaced(alloc: Global, ill: Ill) -> Option<String> {
    format!(in alloc; "replaced {ill}").ok()
}

fn applied(alloc: Global, command: Command, removed: u32) -> Option<String> {
    format!(in alloc; "applied {command} removed={removed}").ok()
}

pub fn step(alloc: Global, answer: StepAnswer) -> Option<String> {
    match answer {
        StepAnswer::Empty => word(alloc, "empty"),
        StepAnswer::Drained => word(alloc, "drained"),
        StepAnswer::Unwritten => word(alloc, "unwritten"),
        StepAnswer::Applied { command, removed } => applied(alloc, command, removed),
        StepAnswer::Stopped(ill) => stopped(alloc, ill),
        StepAnswer::Replaced(ill) => replaced(alloc, ill),
        StepAnswer::StillStopped => word(alloc, "still stopped"),
        StepAnswer::Exhausted => word(alloc, "exhausted"),
    }
}

pub fn run(alloc: Global, answer: RunAnswer) -> Option<String> {
    match answer {
        RunAnswer::Empty => word(alloc, "empty"),
        RunAnswer::Drained => word(alloc, "drained"),
        RunAnswer::Unwritten => word(alloc, "unwritten"),
        RunAnswer::Applied { count, removed } => {
            format!(in alloc; "applied {count} removed={removed}").ok()
        }
        RunAnswer::Stopped(ill) => stopped(alloc, ill),
        RunAnswer::Replaced(ill) => replaced(alloc, ill),
        RunAnswer::StillStopped => word(alloc, "still stopped"),
        RunAnswer::Exhausted => word(alloc, "exhausted"),
    }
}

pub fn registers(alloc: Global, found: Registers) -> Option<String> {
    let (prod, cons) = (found.prod, found.cons);
    let (gerror, gerrorn) = (found.gerror, found.gerrorn);
    format!(in alloc; "prod {prod} cons {cons} gerror {gerror} gerrorn {gerrorn}").ok()
}

pub fn counts(alloc: Global, counts: &Counts) -> Option<String> {
    let (taken, applied, replaced) = (counts.taken(), counts.applied(), counts.replaced());
    let (syncs, removed) = (counts.syncs(), counts.removed());
    format!(in alloc;
        "taken {taken} applied {applied} replaced {replaced} syncs {syncs} removed {removed}"
    ).ok()
}

pub fn held(alloc: Global, entry: Option<Entry>) -> Option<String> {
    match entry {
        Some(entry) => {
            let (value, born) = (entry.value, entry.born);
            format!(in alloc; "value={value} born={born}").ok()
        }
        None => word(alloc, "none"),
    }
}
