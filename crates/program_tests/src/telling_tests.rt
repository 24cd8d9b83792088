//! What is told if nothing is asked for, and that what is told is flushed.
use crate::running::{PIPE, run, status_of};
use fake_streams::Sink;
use program::{Watched, tell_of_memory, tell_without_words};
use std::io;
use std::io::{ErrorKind, Write};
use std::process::Abort;
use std::thread::Threads;

/// Tells why the words can't be had, and expects this status, and these texts on standard output and of faults.
fn expect_told<R: AllocGlobal + Abort>(rt: &R, why: ErrorKind, wanted: (u8, &str, &str)) {
    let mut output = Watched::new(Sink::new(100, 0, PIPE));
    let mut faults = Watched::new(Sink::new(100, 0, PIPE));
    let why = io::Error::from(why);
    let status = tell_without_words(rt.alloc(), &why, &mut output, &mut faults);
    let told = (status, output.inner().text(), faults.inner().text());
    assert_eq!(rt; told, wanted);
}

#[test]
fn a_word_that_is_not_utf8(rt: HostRuntime) {
    let text = "error: a word of the command line isn't UTF-8\n";
    expect_told(&rt, ErrorKind::InvalidData, (2, "", text));
}

#[test]
fn no_memory_for_the_words(rt: HostRuntime) {
    let wanted = (3, "no memory\n", "smmuq: out of memory\n");
    expect_told(&rt, ErrorKind::OutOfMemory, wanted);
}

#[test]
fn no_memory_that_cannot_be_told(rt: HostRuntime) {
    let mut output = Watched::new(Sink::new(100, 1, PIPE));
    assert_eq!(rt; tell_of_memory(&mut output).exit_status(), 4);
}

/// Runs the program on the words of a line, and expects standard output and the output of faults to be flushed or not.
fn expect_flushed<R: Threads + AllocGlobal + Abort + Sync>(
    rt: &R,
    line: &str,
    wanted: (bool, bool),
) {
    let words: Vec<&str> = line
        .split(' ')
        .collect(rt.alloc())
        .expect(rt, "there is memory");
    let ran = run(rt, words.as_slice(), "", (1, 0));
    assert_eq!(rt; ran.flushed(), wanted, "{line}");
}

#[test]
fn what_is_told_is_flushed(rt: HostRuntime) {
    let line = "stress --log2 1 --senders 1 --batches 1 --turns 1";
    expect_flushed(&rt, line, (true, false));
    expect_flushed(
        &rt,
        "decode 03000000050000000100000000000000",
        (true, false),
    );
    expect_flushed(&rt, "decode 0g", (true, false));
    expect_flushed(&rt, "--help", (true, false));
    expect_flushed(&rt, "explode", (false, true));
}

/// Passes a watched writer a text in one call of each kind, and expects its own writer to have it.
#[test]
fn a_watched_writer_hands_on_what_it_is_given(rt: HostRuntime) {
    let mut output = Watched::new(Sink::new(100, 0, PIPE));
    let one = output.write(b"one ").unwrap_or(0);
    let two = output.write_all(b"two").is_ok();
    let inner = output.inner();
    assert_eq!(rt;
        (one, two, inner.text(), inner.flushes),
        (4, true, "one two", 0)
    );
    let flushed = output.flush().is_ok();
    assert_eq!(rt; (flushed, output.inner().flushes), (true, 1));
}

/// A failed write is told on standard error, with the system's text.
#[test]
fn a_write_that_fails_is_told(rt: HostRuntime) {
    let mut input = "ring 3 1 4 4\n".as_bytes();
    let mut output = Watched::new(Sink::new(100, 1, ErrorKind::PermissionDenied));
    let mut faults = Watched::new(Sink::new(100, 0, PIPE));
    let status = status_of(&rt, &["replay"], &mut input, &mut output, &mut faults);
    let told = faults.inner().text();
    let is_line = told.starts_with("smmuq: standard output: ") && told.ends_with("\n");
    assert_eq!(rt;
        (status, is_line, told.len() > 30),
        (4, true, true),
        "{told}"
    );
}

/// If that can't be told, the status is the same.
#[test]
fn a_write_that_fails_where_nobody_listens(rt: HostRuntime) {
    let mut input = "ring 3 1 4 4\n".as_bytes();
    let mut output = Watched::new(Sink::new(100, 1, ErrorKind::PermissionDenied));
    let mut faults = Watched::new(Sink::new(100, 1, PIPE));
    let status = status_of(&rt, &["replay"], &mut input, &mut output, &mut faults);
    assert_eq!(rt; status, 4);
}
