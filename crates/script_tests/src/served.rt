//! Schedules, and what is expected of them.
use fake_streams::{Sink, Source};
use schedule::schedule;
use script::Status;
use std::alloc::{AllocError, Global};
use std::io::{ErrorKind, Read, Write};
use std::process::Abort;

const PIPE: ErrorKind = ErrorKind::BrokenPipe;

// The theorem isn't passed on, since it would be costly in each test.
/// Serves a script.
pub fn status_of<R: Read, W: Write>(alloc: Global, input: &mut R, output: &mut W) -> Status {
    schedule(alloc, input, output)
}

/// Serves a script, and expects this status and exactly this text. Reader and writer are each given how many bytes a
/// call moves at most, and the reader which call fails.
fn expect_through<R: AllocGlobal + Abort>(
    rt: &R,
    script: &str,
    (read, bad): (usize, usize),
    written: usize,
    wanted: (Status, &str),
) {
    let mut input = Source::new(script.as_bytes(), read, bad, PIPE);
    let mut output = Sink::new(written, 0, PIPE);
    let ended = status_of(rt.alloc(), &mut input, &mut output);
    let told = (ended, output.text());
    assert_eq!(rt; told, wanted, "read {bad} by {read}, written by {written}");
}

/// Serves a script in pieces of several lengths, and expects this text and this status each time.
pub fn expect_in_pieces<R: AllocGlobal + Abort>(rt: &R, script: &str, text: &str, status: Status) {
    for read in [1, 7, 100_000] {
        for written in [1, 7, 100_000] {
            expect_through(rt, script, (read, 0), written, (status, text));
        }
    }
}

/// Has each write fail in turn, a byte at a time, and expects exactly the text before it.
pub fn expect_failed_writes<R: AllocGlobal + Abort>(rt: &R, script: &str, text: &str) {
    for bad in 1..=text.len() {
        let mut input = Source::new(script.as_bytes(), 100, 0, PIPE);
        let mut output = Sink::new(1, bad, PIPE);
        let ended = status_of(rt.alloc(), &mut input, &mut output);
        let told = (ended, Some(output.text()), output.calls);
        assert_eq!(rt; told, (Status::WriteFailed, text.get(..bad - 1), bad));
    }
}

/// Returns the answers to the lines of a table `LINE = ANSWER` whose ends are before the byte of this number.
fn answers_before(alloc: Global, table: &str, bad: usize) -> Result<String, AllocError> {
    let mut text = String::new(alloc);
    let mut read = 0usize;
    for line in table.lines() {
        let (asked, answer) = line.split_once(" = ").unwrap_or((line, ""));
        read = read.saturating_add(asked.len()).saturating_add(1);
        if read < bad && !answer.is_empty() {
            text.push_str(answer)?;
            text.push_str("\n")?;
        }
    }
    Ok(text)
}

/// Returns the lines of the table without their answers, and then a last one without its end.
fn script_of(alloc: Global, table: &str, last: &str) -> Result<String, AllocError> {
    let mut script = String::new(alloc);
    for line in table.lines() {
        let (asked, _) = line.split_once(" = ").unwrap_or((line, ""));
        script.push_str(asked)?;
        script.push_str("\n")?;
    }
    script.push_str(last)?;
    Ok(script)
}

/// Has each read fail in turn, a byte at a time, and expects exactly the answers to the lines whose ends were read.
pub fn expect_failed_reads<R: AllocGlobal + Abort>(rt: &R, table: &str, last: &str) {
    let script = script_of(rt.alloc(), table, last).expect(rt, "there is memory");
    // The call after the last byte finds the end.
    for bad in 1..=script.len() + 1 {
        let text = answers_before(rt.alloc(), table, bad).expect(rt, "there is memory");
        let wanted = (Status::ReadFailed, text.as_str());
        expect_through(rt, script.as_str(), (1, bad), 100, wanted);
    }
}
