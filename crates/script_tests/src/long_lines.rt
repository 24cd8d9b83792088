//! A line of ten million bytes without an end: only enough is read to tell that it is too long.
use crate::served::status_of;
use fake_streams::{Pieces, Sink};
use script::Status;
use std::io;
use std::io::{ErrorKind, Read};
use std::process::Abort;

/// Serves these lines and then ten million spaces, and expects this text.
fn expect_long_line<R: AllocGlobal + Abort>(rt: &R, front: &str, text: &str) {
    for most in [1, 1_000, 10_000] {
        let spaces = io::repeat(b' ').take(10_000_000);
        let mut input = Pieces::new(front.as_bytes().chain(spaces), most);
        let mut output = Sink::new(100, 0, ErrorKind::BrokenPipe);
        let ended = status_of(rt.alloc(), &mut input, &mut output);
        assert_eq!(rt; (ended, output.text()), (Status::Refused, text), "{front}");
        // The last read gave the byte that makes the line too long.
        let least = front.len().saturating_add(4097);
        let more = input.given.saturating_sub(least);
        assert!(rt; input.given >= least && more < most, "{more} by {most}");
    }
}

#[test]
fn a_line_of_ten_million_bytes_comes_first(rt: HostRuntime) {
    expect_long_line(&rt, "", "line 1: long line\n");
}

#[test]
fn a_line_of_ten_million_bytes_follows_a_good_one(rt: HostRuntime) {
    let text = "ring size 8\nline 2: long line\n";
    expect_long_line(&rt, "ring 3 1\n", text);
}
