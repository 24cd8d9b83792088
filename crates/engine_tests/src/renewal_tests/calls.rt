//! Texts of calls of a queue of two senders, one a line, each with its answer after ` = `.
ghost use Rattle.std.specs.Prelude.{◌≡◌};

use crate::renewal_tests::answers;
use crate::renewal_tests::pairs::{Pair, batch_of, new_pair, renewed, translation};
use engine::{Engine, Remedy};
use renewal::Sizes;
use ring::Ring;
use std::alloc::{AllocError, Global};
use std::process::Abort;

fn sizes(text: &str) -> Option<Sizes> {
    let (log2, rest) = text.split_once(" ")?;
    let (max_batches, capacity) = rest.split_once(" ")?;
    Some(Sizes {
        log2: log2.parse().ok()?,
        max_batches: max_batches.parse().ok()?,
        capacity: capacity.parse().ok()?,
    })
}

/// Fills the translation of a page, `fill PAGE VALUE`.
fn fill(engine: &mut Engine, text: &str) -> Option<&'static str>
    ensures { engine.new.consumer ≡ engine.old.consumer }
{
    let (page, value) = text.split_once(" ")?;
    let value = value.parse().ok()?;
    let Some(tag) = translation(page.parse().ok()?) else {
        return None;
    };
    match engine.fill(tag, value) {
        Ok(_) => Some("filled"),
        Err(fault) => Some(fault.label()),
    }
}

fn replace(engine: &mut Engine) -> &'static str
    ensures { engine.new.consumer ≡ engine.old.consumer }
{
    match engine.acknowledge(1, Remedy::Replace) {
        Ok(()) => "acknowledged",
        Err(fault) => fault.label(),
    }
}

/// The entry of the translation of a page.
fn held_at(alloc: Global, engine: &Engine, page: &str) -> Option<String> {
    let Some(tag) = translation(page.parse().ok()?) else {
        return None;
    };
    answers::held(alloc, engine.lookup(&tag))
}

/// Appends a word to others.
fn append(told: &mut String, word: &str) -> Result<(), AllocError> {
    if !told.is_empty() {
        told.push_str(", ")?;
    }
    told.push_str(word)
}

/// The entries of the translations of pages, `held PAGE ..`.
fn held(alloc: Global, engine: &Engine, pages: &str) -> Option<String> {
    let mut told = String::new(alloc);
    for page in pages.split(" ") {
        let entry = held_at(alloc, engine, page)?;
        append(&mut told, entry.as_str()).ok()?;
    }
    Some(told)
}

/// Returns what an engine tells without a step.
fn state(alloc: Global, engine: &Engine, name: &str, text: &str) -> Option<String> {
    match name {
        "held" => held(alloc, engine, text),
        "taken" => engine.counts().taken().to_string(alloc).ok(),
        "error" => {
            let (err, gerror, gerrorn) = engine.error();
            format!(in alloc; "{err} {gerror} {gerrorn}").ok()
        }
        _ => None,
    }
}

/// Sends a batch from the first sender. Returns its number and the sender's, or the label of the refusal.
fn send(alloc: Global, pair: Pair, text: &str) -> (Pair, Option<String>) {
    let Some(batch) = batch_of(text) else {
        return (pair, None);
    };
    let Pair {
        ring,
        first,
        second,
        spare,
        engine,
    } = pair;
    let (first, told) = match first.send(&ring, &batch, 1) {
        Ok((first, receipt)) => {
            let (sender, number) = (receipt.sender(), receipt.number());
            (
                first,
                format!(in alloc; "sender {sender} number {number}").ok(),
            )
        }
        Err(refused) => (refused.sender, answers::word(alloc, refused.cause.label())),
    };
    let pair = Pair {
        ring,
        first,
        second,
        spare,
        engine,
    };
    (pair, told)
}

/// Returns the answer to a call of the engine, which its first word names.
fn engine_call(
    alloc: Global,
    ring: &Ring,
    engine: &mut Engine,
    name: &str,
    text: &str,
) -> Option<String>
    requires { engine.old.consumer.ring ≡ ring.now }
    ensures { engine.new.consumer.ring ≡ ring.now }
{
    match name {
        "fill" => answers::word(alloc, fill(engine, text)?),
        "run" => answers::run(alloc, engine.step_run(ring, 64)),
        "replace" => answers::word(alloc, replace(engine)),
        _ => state(alloc, engine, name, text),
    }
}

/// Returns the answer to a call that borrows the queue.
fn call(alloc: Global, pair: &mut Pair, name: &str, text: &str) -> Option<String> {
    if name == "done" {
        let number = pair.first.done_up_to(&pair.ring);
        return number.to_string(alloc).ok();
    }
    engine_call(alloc, &pair.ring, &mut pair.engine, name, text)
}

fn answer(rt: &impl Abort, alloc: Global, pair: Pair, line: &str) -> (Pair, Option<String>) {
    let (name, text) = line.split_once(" ").unwrap_or((line, ""));
    match name {
        "send" => send(alloc, pair, text),
        "renew" => {
            let sizes = sizes(text).expect(rt, line);
            let (pair, told) = renewed(rt, alloc, pair, sizes);
            (pair, answers::renewed(alloc, told))
        }
        _ => {
            let mut pair = pair;
            let told = call(alloc, &mut pair, name, text);
            (pair, told)
        }
    }
}

/// Makes the call of a line, and expects the answer after it.
fn expect_answer<R: AllocGlobal + Abort>(rt: &R, pair: Pair, line: &str) -> Pair {
    let (call, wanted) = line.split_once(" = ").unwrap_or((line, ""));
    let (pair, told) = answer(rt, rt.alloc(), pair, call);
    let told = told.expect(rt, line);
    assert_eq!(rt; told.as_str(), wanted, "{line}");
    pair
}

/// Makes the calls of a text, on a new queue whose senders may reserve `max_batches` batches each, and expects the
/// answer after each.
pub fn expect_answers<R: AllocGlobal + Abort>(rt: &R, max_batches: u32, calls: &str) {
    let mut pair = new_pair(rt.alloc(), max_batches).expect(rt, "a queue");
    for line in calls.lines() {
        pair = expect_answer(rt, pair, line);
    }
}
