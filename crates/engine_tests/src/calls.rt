//! Texts of calls of an engine and its ring's only sender, one a line, each with its answer after ` = `.
ghost use Rattle.std.specs.Prelude.{◌≡◌, []};

use crate::commands::batch;
use crate::told;
use caches::{Caches, Kind, Tag};
use cmdcodec::Sid;
use engine::{Engine, Finished, Remedy};
use ring::{Ring, Sender};
use std::alloc::Global;
use std::process::Abort;

/// A ring's only sender, and its engine.
pub struct Parts {
    pub sender: Sender,
    pub engine: Engine,
}

fn send(alloc: Global, ring: &Ring, sender: Sender, letters: &str) -> (Sender, Option<String>)
    requires { sender.ring ≡ ring.now }
    ensures ring { result.0.ring ≡ ring.now }
    ensures id { result.0.number ≡ sender.number }
{
    let Some(batch) = batch(letters) else {
        return (sender, None);
    };
    match sender.send(ring, &batch, 1) {
        Ok((sender, receipt)) => {
            let number = receipt.number();
            (sender, format!(in alloc; "number {number}").ok())
        }
        Err(refused) => {
            let label = refused.cause.label();
            (refused.sender, format!(in alloc; "refused {label}").ok())
        }
    }
}

fn sid(word: &str) -> Option<Sid> {
    Sid::new(word.parse().ok()?)
}

fn acknowledge(alloc: Global, engine: &mut Engine, text: &str) -> Option<String>
    ensures { engine.new.consumer ≡ engine.old.consumer }
{
    let (word, remedy) = text.split_once(" ")?;
    let gerrorn = word.parse().ok()?;
    let remedy = match remedy {
        "retry" => Remedy::Retry,
        "replace" => Remedy::Replace,
        _ => return None,
    };
    match engine.acknowledge(gerrorn, remedy) {
        Ok(()) => String::from_str(alloc, "acknowledged").ok(),
        Err(fault) => {
            let label = fault.label();
            format!(in alloc; "refused {label}").ok()
        }
    }
}

fn fill(alloc: Global, engine: &mut Engine, text: &str) -> Option<String>
    ensures { engine.new.consumer ≡ engine.old.consumer }
{
    let (word, value) = text.split_once(" ")?;
    let sid = sid(word)?;
    let value = value.parse().ok()?;
    match engine.fill(Tag::Ste { sid }, value) {
        Ok(before) => told::held(alloc, before),
        Err(fault) => {
            let label = fault.label();
            format!(in alloc; "refused {label}").ok()
        }
    }
}

fn evict(alloc: Global, engine: &mut Engine, text: &str) -> Option<String>
    ensures { engine.new.consumer ≡ engine.old.consumer }
{
    let sid = sid(text)?;
    told::held(alloc, engine.evict(&Tag::Ste { sid }))
}

fn lookup(alloc: Global, engine: &Engine, text: &str) -> Option<String> {
    let sid = sid(text)?;
    told::held(alloc, engine.lookup(&Tag::Ste { sid }))
}

/// Returns what an engine tells without a step.
fn state(alloc: Global, engine: &Engine, name: &str, text: &str) -> Option<String> {
    match name {
        "lookup" => lookup(alloc, engine, text),
        "entries" => engine.entries().ok()?.len().to_string(alloc).ok(),
        "counts" => told::counts(alloc, &engine.counts()),
        "stopped" => engine.stopped().to_string(alloc).ok(),
        "error" => {
            let (err, gerror, gerrorn) = engine.error();
            format!(in alloc; "{err} {gerror} {gerrorn}").ok()
        }
        _ => None,
    }
}

/// Returns the answer to a call of the engine, which its first word names.
fn call(alloc: Global, ring: &Ring, engine: &mut Engine, name: &str, text: &str) -> Option<String>
    requires { engine.old.consumer.ring ≡ ring.now }
    ensures { engine.new.consumer.ring ≡ ring.now }
{
    match name {
        "step" => told::step(alloc, engine.step(ring)),
        "run" => told::run(alloc, engine.step_run(ring, 64)),
        "registers" => told::registers(alloc, engine.registers(ring)),
        "ack" => acknowledge(alloc, engine, text),
        "fill" => fill(alloc, engine, text),
        "evict" => evict(alloc, engine, text),
        "evict_all" => engine.evict_all(&Kind::Ste).to_string(alloc).ok(),
        "evict_older" => {
            let born = text.parse().ok()?;
            engine.evict_older(born).to_string(alloc).ok()
        }
        _ => state(alloc, engine, name, text),
    }
}

/// Returns the answer to a call of the sender or the engine.
fn answer(alloc: Global, ring: &Ring, parts: Parts, line: &str) -> (Parts, Option<String>)
    requires sender { parts.sender.ring ≡ ring.now }
    requires engine { parts.engine.consumer.ring ≡ ring.now }
    ensures sender { result.0.sender.ring ≡ ring.now }
    ensures id { result.0.sender.number ≡ parts.sender.number }
    ensures engine { result.0.engine.consumer.ring ≡ ring.now }
{
    let Parts {
        mut sender,
        mut engine,
    } = parts;
    let (name, text) = line.split_once(" ").unwrap_or((line, ""));
    let answer = match name {
        "send" => {
            let (again, answer) = send(alloc, ring, sender, text);
            sender = again;
            answer
        }
        "close" => {
            sender.close(ring);
            String::from_str(alloc, "closed").ok()
        }
        "done" => sender.done_up_to(ring).to_string(alloc).ok(),
        _ => call(alloc, ring, &mut engine, name, text),
    };
    (Parts { sender, engine }, answer)
}

/// Makes the calls of a text, and expects the answer after each.
pub fn expect_answers<R: AllocGlobal + Abort>(
    rt: &R,
    ring: &Ring,
    parts: Parts,
    calls: &str,
) -> Parts
    requires sender { parts.sender.ring ≡ ring.now }
    requires engine { parts.engine.consumer.ring ≡ ring.now }
    ensures sender { result.sender.ring ≡ ring.now }
    ensures id { result.sender.number ≡ parts.sender.number }
    ensures engine { result.engine.consumer.ring ≡ ring.now }
{
    let mut parts = parts;
    for line in calls.lines() {
        let (call, wanted) = line.split_once(" = ").unwrap_or((line, ""));
        let (again, told) = answer(rt.alloc(), ring, parts, call);
        parts = again;
        let told = told.expect(rt, line);
        assert_eq!(rt; told.as_str(), wanted, "{line}");
    }
    parts
}

/// Returns a new ring of `2^log2` slots, its only sender, which may send `max_batches` batches, and an engine with
/// `capacity` entries.
pub fn start<R: AllocGlobal + Abort>(
    rt: &R,
    log2: u32,
    max_batches: u32,
    capacity: u32,
) -> (Ring, Vec<Sender>, Parts)
    ensures senders { result.1.items ≡ [] }
    ensures one { result.0.made_with.senders ≡ 1 }
    ensures sender { result.2.sender.ring ≡ result.0 }
    ensures number { result.2.sender.number ≡ 0 }
    ensures engine { result.2.engine.consumer.ring ≡ result.0 }
{
    let made = Ring::new(rt.alloc(), log2, 1, max_batches);
    let (ring, mut senders, consumer) = made.expect(rt, "a ring");
    let sender = senders.pop().expect(rt, "one sender");
    let caches = Caches::new(rt.alloc(), capacity).expect(rt, "caches");
    let engine = Engine::new(consumer, caches);
    (ring, senders, Parts { sender, engine })
}

/// Joins the parts of a ring of one sender.
pub fn finish(rt: &impl Abort, ring: Ring, mut senders: Vec<Sender>, parts: Parts) -> Finished
    requires senders { senders.items ≡ [] }
    requires one { ring.made_with.senders ≡ 1 }
    requires sender { parts.sender.ring ≡ ring }
    requires number { parts.sender.number ≡ 0 }
    requires engine { parts.engine.consumer.ring ≡ ring }
{
    let Parts { sender, engine } = parts;
    senders.push(sender).expect(rt, "memory");
    engine.finish(ring, senders)
}
