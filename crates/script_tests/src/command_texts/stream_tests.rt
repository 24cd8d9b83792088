//! Lines of both kinds, from a reader to a writer.
use crate::command_texts::answered::{Kind, expect_answer};
use fake_streams::{Sink, Source};
use script::Status;
use std::io::ErrorKind;

const PIPE: ErrorKind = ErrorKind::BrokenPipe;

/// Two lines of each kind, the first of fewer than 24 bytes, and the answer to that one.
const WORKED: [(Kind, &str, &str); 2] = [
    (
        Kind::Texts,
        "CFGI_STE sid=5 leaf=1\nTLBI_NSNH_ALL\n",
        "03000000050000000100000000000000\n",
    ),
    (
        Kind::Words,
        "0x0000000500000003 0x1\n0x30 0x0\n",
        "CFGI_STE sid=5 leaf=1\n",
    ),
];

#[test]
fn failed_read_leaves_the_whole_lines_answered(rt: HostRuntime) {
    for (kind, lines, first) in WORKED {
        let mut input = Source::new(lines.as_bytes(), 24, 2, PIPE);
        expect_answer(&rt, kind, &mut input, first, Status::ReadFailed);
    }
}

#[test]
fn failed_write_leaves_a_beginning(rt: HostRuntime) {
    for (kind, lines, first) in WORKED {
        let mut output = Sink::new(9, 2, PIPE);
        let ended = kind.status_of(rt.alloc(), &mut lines.as_bytes(), &mut output);
        assert_eq!(rt;
            (ended, Some(output.text())),
            (Status::WriteFailed, first.get(..9))
        );
    }
}
