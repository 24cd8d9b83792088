//! What no clause says: the words of some batches, the texts of faults, and which of two faults is told.
use crate::answers::{expect_text, none};
use crate::cmdcodec_tests::words::{raw, words};
use crate::numbers::{next_u64, number};
use batch::{Batch, BatchBuffer, BatchFault};
use cmdcodec::{Asid, Page, Raw, Sid, Vmid, decode};
use std::alloc::Global;
use std::process::Abort;

const CFGI_STE: Raw = Raw { lo: 0x03, hi: 0 };

const CMD_SYNC: Raw = Raw { lo: 0x46, hi: 0 };

/// The virtual machine and the address space of all ranges.
fn space() -> (Vmid, Asid) {
    (Vmid::new(1).unwrap(), Asid::new(2).unwrap())
}

fn range(asked: &str) -> Option<Result<Batch, BatchFault>> {
    let mut numbers = asked.split_whitespace();
    let (vmid, asid) = space();
    let page = Page::new(next_u64(&mut numbers)?)?;
    Some(Batch::range(vmid, asid, page, next_u64(&mut numbers)?))
}

/// The same, made in a buffer in which another batch was made before.
fn buffered(asked: &str) -> Option<Result<Batch, BatchFault>> {
    let mut numbers = asked.split_whitespace();
    let (vmid, asid) = space();
    let page = Page::new(next_u64(&mut numbers)?)?;
    let pages = next_u64(&mut numbers)?;
    let mut buffer = BatchBuffer::new();
    buffer.detach(Sid::new(5)?);
    match buffer.range(vmid, asid, page, pages) {
        Ok(batch) => Some(Ok(Batch::from(batch))),
        Err(fault) => Some(Err(fault)),
    }
}

fn invalidate(batch: &mut Batch, asked: &str) -> Option<Result<(), BatchFault>> {
    let mut numbers = asked.split_whitespace();
    let (vmid, asid) = space();
    let page = Page::new(next_u64(&mut numbers)?)?;
    Some(batch.invalidate_range(vmid, asid, page, next_u64(&mut numbers)?))
}

/// A list of `count` commands, with a CMD_SYNC at the place that is given, if one is.
fn list(asked: &str) -> Option<Result<Batch, BatchFault>> {
    let mut numbers = asked.split_whitespace();
    let count = next_u64(&mut numbers)?;
    let mut raws = [CFGI_STE; 64];
    if let Some(word) = numbers.next() {
        let place = number(word)?;
        if place < 64 {
            raws[place as usize] = CMD_SYNC;
        }
    }
    if count > 64 {
        return None;
    }
    Some(Batch::from_raws(&raws[..count as usize]))
}

fn push(batch: &mut Batch, asked: &str) -> Option<Result<(), BatchFault>> {
    match decode(raw(asked)?) {
        Ok(command) => Some(batch.push(&command)),
        Err(_) => None,
    }
}

/// Returns the batch that a call makes, if it makes one.
fn maker(name: &str, asked: &str) -> Option<Result<Batch, BatchFault>> {
    match name {
        "new" => Some(Batch::new(raw(asked)?)),
        "list" => list(asked),
        "range" => range(asked),
        "buffered" => buffered(asked),
        "detach" => Some(Batch::detach(Sid::new(number(asked)?)?)),
        _ => None,
    }
}

/// Replaces a batch with one that was made.
fn replace(batch: &mut Batch, made: Result<Batch, BatchFault>) -> Result<(), BatchFault> {
    *batch = made?;
    Ok(())
}

/// Makes a call that may change the batch, and returns its result.
fn change(batch: &mut Batch, name: &str, asked: &str) -> Option<Result<(), BatchFault>> {
    match name {
        "push" => push(batch, asked),
        "push_raw" => Some(batch.push_raw(raw(asked)?)),
        "invalidate" => invalidate(batch, asked),
        "detach_stream" => Some(batch.detach_stream(Sid::new(number(asked)?)?)),
        _ => Some(replace(batch, maker(name, asked)?)),
    }
}

fn get(alloc: Global, batch: &Batch, asked: &str) -> Option<String> {
    match batch.get(usize::try_from(number(asked)?).ok()?) {
        Some(raw) => words(alloc, raw),
        None => none(alloc),
    }
}

/// Returns the answer to a call: if it may change the batch, the batch's length after it, or the fault.
fn answer(alloc: Global, batch: &mut Batch, call: &str) -> Option<String> {
    let (name, asked) = call.split_once(" ").unwrap_or((call, ""));
    if name == "get" {
        return get(alloc, batch, asked);
    }
    if name == "len" {
        return batch.len().to_string(alloc).ok();
    }
    match change(batch, name, asked)? {
        Ok(()) => batch.len().to_string(alloc).ok(),
        Err(fault) => String::from_str(alloc, fault.label()).ok(),
    }
}

/// Makes the calls of a text on one batch after another, and expects the answer after each.
fn expect_answers<R: AllocGlobal + Abort>(rt: &R, calls: &str) {
    let mut batch = Batch::new(CFGI_STE).expect(rt, "no sync");
    for line in calls.lines() {
        let (call, wanted) = line.split_once(" = ").unwrap_or((line, ""));
        expect_text(rt, line, answer(rt.alloc(), &mut batch, call), wanted);
    }
}

#[test]
fn pages_become_ranges(rt: HostRuntime) {
    expect_answers(
        &rt,
        "range 0x10 2 = 1\n\
         get 0 = 0x2000100100012 0x10401\n\
         get 1 = none\n\
         range 0x10 33 = 2\n\
         get 0 = 0x2000100000012 0x10001\n\
         get 1 = 0x2000100500012 0x11401\n\
         get 2 = none",
    );
}

#[test]
fn a_buffer_has_one_batch_at_a_time(rt: HostRuntime) {
    expect_answers(
        &rt,
        "buffered 0x10 33 = 2\n\
         get 0 = 0x2000100000012 0x10001\n\
         get 1 = 0x2000100500012 0x11401\n\
         get 2 = none\n\
         buffered 0 0 = B3\n\
         len = 2",
    );
}

#[test]
fn many_pages_are_many_commands(rt: HostRuntime) {
    expect_answers(
        &rt,
        "range 0 64 = 1\n\
         range 0 0x20000000000 = 32\n\
         range 0 0x40000000000 = B1",
    );
}

#[test]
fn ranges_end_with_the_address_space(rt: HostRuntime) {
    expect_answers(
        &rt,
        "range 0xfffffffffffff 1 = 1\n\
         range 0xfffffffffffff 2 = B4\n\
         range 1 0xffffffffffffffff = B4\n\
         range 0 0 = B3",
    );
}

#[test]
fn a_full_batch_takes_no_range(rt: HostRuntime) {
    expect_answers(
        &rt,
        "list 63 = 63\n\
         invalidate 0 0 = B3\n\
         invalidate 0xfffffffffffff 2 = B4\n\
         invalidate 0 64 = B1\n\
         len = 63",
    );
}

#[test]
fn a_range_is_appended_whole_or_not(rt: HostRuntime) {
    expect_answers(
        &rt,
        "list 61 = 61\n\
         invalidate 0 33 = 63\n\
         len = 63\n\
         list 62 = 62\n\
         invalidate 0 33 = B1\n\
         len = 62",
    );
}

#[test]
fn a_stream_is_detached(rt: HostRuntime) {
    expect_answers(
        &rt,
        "detach 5 = 3\n\
         get 0 = 0x500000003 0x1\n\
         get 1 = 0x500000006 0x0\n\
         get 2 = 0x500000040 0x34\n\
         len = 3\n\
         list 60 = 60\n\
         detach_stream 5 = 63\n\
         len = 63\n\
         get 62 = 0x500000040 0x34\n\
         list 61 = 61\n\
         detach_stream 5 = B1\n\
         len = 61",
    );
}

#[test]
fn lists_are_refused_in_order(rt: HostRuntime) {
    expect_answers(
        &rt,
        "list 0 = B5\n\
         list 63 = 63\n\
         list 64 = B1\n\
         list 64 7 = B1\n\
         list 63 7 = B2",
    );
}

// An unknown opcode is no CMD_SYNC.
#[test]
fn commands_are_appended(rt: HostRuntime) {
    expect_answers(
        &rt,
        "new 0x3 0x0 = 1\n\
         push 0x20 0x0 = 2\n\
         push_raw 0xff 0x1 = 3\n\
         len = 3\n\
         get 0 = 0x3 0x0\n\
         get 1 = 0x20 0x0\n\
         get 2 = 0xff 0x1\n\
         get 3 = none",
    );
}

// An illegal CMD_SYNC too.
#[test]
fn a_sync_is_told_ahead_of_a_full_batch(rt: HostRuntime) {
    expect_answers(
        &rt,
        "new 0x46 0x0 = B2\n\
         list 63 = 63\n\
         push_raw 0x3046 0x0 = B2\n\
         push_raw 0x3 0x0 = B1\n\
         push 0x20 0x0 = B1\n\
         len = 63",
    );
}
