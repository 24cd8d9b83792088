//! Reads and writes that fail.
use crate::guests::asking::{STREAMS, full, status_of};
use fake_streams::{Sink, Source};
use script::Status;
use std::io::ErrorKind;

const PIPE: ErrorKind = ErrorKind::BrokenPipe;

/// Two lines, the first of 24 bytes.
const LINES: &str = "0x0000000000000046 0x00\n0x30 0x0\n";

#[test]
fn failed_read_leaves_the_whole_lines_answered(rt: HostRuntime) {
    let guest = full(&STREAMS).guest(rt.alloc()).expect(&rt, "a guest");
    let mut input = Source::new(LINES.as_bytes(), 24, 2, PIPE);
    let mut output = Vec::new(rt.alloc());
    let status = status_of(rt.alloc(), guest, &mut input, &mut output);
    assert!(rt; status == Status::ReadFailed && output.as_slice() == b"sync\n".as_slice());
}

#[test]
fn failed_write_leaves_a_beginning(rt: HostRuntime) {
    let guest = full(&STREAMS).guest(rt.alloc()).expect(&rt, "a guest");
    let mut output = Sink::new(3, 2, PIPE);
    let status = status_of(rt.alloc(), guest, &mut LINES.as_bytes(), &mut output);
    assert!(rt; status == Status::WriteFailed && output.text() == "syn");
}
