//! Reads and writes that fail in mid-stream.
use crate::traces::answered::{expect_answer, status_of};
use fake_streams::{Sink, Source};
use script::Status;
use std::io::ErrorKind;

const PIPE: ErrorKind = ErrorKind::BrokenPipe;

#[test]
fn failed_read_leaves_whole_lines_answered(rt: HostRuntime) {
    let log = "walk 1\nfill 1 ste 5 70\n";
    let mut input = Source::new(log.as_bytes(), 9, 2, PIPE);
    expect_answer(&rt, &mut input, "walking\n", Status::ReadFailed);
}

#[test]
fn failed_write_leaves_a_beginning(rt: HostRuntime) {
    let mut output = Sink::new(5, 2, PIPE);
    let ended = status_of(rt.alloc(), &mut b"walk 1\n".as_slice(), &mut output);
    assert_eq!(rt; (ended, output.text()), (Status::WriteFailed, "walki"));
}
