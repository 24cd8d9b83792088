//! What logs are answered with.
use script::Status;
use std::alloc::Global;
use std::io::{Read, Write};
use std::process::Abort;
use trace::trace;

// The theorem isn't passed on, since it would be costly in each test.
pub fn status_of<R: Read, W: Write>(alloc: Global, input: &mut R, output: &mut W) -> Status {
    trace(alloc, input, output)
}

/// Judges what a reader gives, and expects this text and this status.
pub fn expect_answer<A: AllocGlobal + Abort, R: Read>(
    rt: &A,
    input: &mut R,
    text: &str,
    status: Status,
) {
    let mut output = Vec::new(rt.alloc());
    let ended = status_of(rt.alloc(), input, &mut output);
    let answer = str::from_utf8(output.as_slice()).unwrap_or("no text");
    assert_eq!(rt; (ended, answer), (status, text));
}
