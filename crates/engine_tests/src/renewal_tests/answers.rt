//! Answers of a queue as texts.
use caches::Entry;
use engine::{Finished, RunAnswer};
use renewal::RenewalFault;
use ring::{Receipt, Refused};
use std::alloc::Global;

pub fn word(alloc: Global, word: &str) -> Option<String> {
    String::from_str(alloc, word).ok()
}

pub fn run(alloc: Global, answer: RunAnswer) -> Option<String> {
    match answer {
        RunAnswer::Applied { count, removed } => {
            format!(in alloc; "applied {count} removed {removed}").ok()
        }
        RunAnswer::Stopped(_) => word(alloc, "stopped"),
        RunAnswer::Replaced(_) => word(alloc, "replaced"),
        _ => word(alloc, "none applied"),
    }
}

pub fn held(alloc: Global, found: Option<Entry>) -> Option<String> {
    match found {
        Some(entry) => {
            let (value, born) = (entry.value, entry.born);
            format!(in alloc; "{value} born {born}").ok()
        }
        None => word(alloc, "none"),
    }
}

/// What is left of the old queue, or the label and the text of the refusal.
pub fn renewed(alloc: Global, told: Result<Finished, RenewalFault>) -> Option<String> {
    match told {
        Ok(old) => {
            let (reserved, taken) = (old.summary.reserved(), old.summary.taken());
            let (applied, held) = (old.counts.applied(), old.caches.len());
            format!(in alloc;
                "reserved {reserved} taken {taken} applied {applied} held {held}"
            ).ok()
        }
        Err(fault) => {
            let label = fault.label();
            format!(in alloc; "{label} ({fault})").ok()
        }
    }
}
