//! Texts of calls of caches, one a line, each with its answer after ` = `.
use crate::caches_tests::notation::{command, entry, next_entry, sought, tag};
use caches::{Caches, Entry};
use std::alloc::Global;
use std::process::Abort;

/// Caches of this capacity.
pub fn caches_of<R: AllocGlobal + Abort>(rt: &R, capacity: u32) -> Caches {
    Caches::new(rt.alloc(), capacity).expect(rt, "caches")
}

/// Inserts an entry whose tag isn't held yet.
pub fn expect_filled(rt: &impl Abort, caches: &mut Caches, new: Entry) {
    assert_eq!(rt; caches.fill(new), Ok(None));
}

fn told(alloc: Global, held: Option<Entry>) -> Option<String> {
    match held {
        Some(held) => {
            let (value, born) = (held.value, held.born);
            format!(in alloc; "value={value} born={born}").ok()
        }
        None => String::from_str(alloc, "none").ok(),
    }
}

fn fill(alloc: Global, caches: &mut Caches, text: &str) -> Option<String> {
    match caches.fill(entry(text)?) {
        Ok(None) => String::from_str(alloc, "filled").ok(),
        Ok(replaced) => {
            let before = told(alloc, replaced)?;
            format!(in alloc; "replaced {before}").ok()
        }
        Err(fault) => {
            let label = fault.label();
            format!(in alloc; "refused {label}").ok()
        }
    }
}

fn apply(alloc: Global, caches: &mut Caches, text: &str) -> Option<String> {
    let Some(command) = command(alloc, text) else {
        return None;
    };
    caches.apply(&command).to_string(alloc).ok()
}

fn lookup(alloc: Global, caches: &Caches, text: &str) -> Option<String> {
    let Some(tag) = tag(text) else {
        return None;
    };
    told(alloc, caches.lookup(&tag))
}

fn evict(alloc: Global, caches: &mut Caches, text: &str) -> Option<String> {
    let Some(tag) = tag(text) else {
        return None;
    };
    told(alloc, caches.evict(&tag))
}

/// Returns what is found by a text of an address space, a page and a mask of spans.
pub fn found(caches: &Caches, text: &str) -> Option<Entry> {
    let Some(asked) = sought(text) else {
        return None;
    };
    let page = asked.page;
    caches.find(&asked.space, page, asked.spans)
}

/// Returns the answer to a call, which its first word names.
fn answer(alloc: Global, caches: &mut Caches, call: &str) -> Option<String> {
    let (name, text) = call.split_once(" ").unwrap_or((call, ""));
    match name {
        "fill" => fill(alloc, caches, text),
        "apply" => apply(alloc, caches, text),
        "lookup" => lookup(alloc, caches, text),
        "evict" => evict(alloc, caches, text),
        "find" => told(alloc, found(caches, text)),
        "len" => caches.len().to_string(alloc).ok(),
        _ => None,
    }
}

/// Whether exactly these entries are listed, in this order.
pub fn lists(caches: &Caches, wanted: &str) -> bool {
    let Ok(list) = caches.entries() else {
        return false;
    };
    let mut words = wanted.split_whitespace();
    for held in list.iter() {
        if next_entry(&mut words) != Some(*held) {
            return false;
        }
    }
    words.next().is_none()
}

/// Makes the calls of a text, and expects the answer after each.
pub fn expect_answers<R: AllocGlobal + Abort>(rt: &R, caches: &mut Caches, calls: &str) {
    for line in calls.lines() {
        let (call, wanted) = line.split_once(" = ").unwrap_or((line, ""));
        let found = answer(rt.alloc(), caches, call).expect(rt, line);
        assert!(rt; found.as_str() == wanted, "{line}, not {found}");
    }
}
