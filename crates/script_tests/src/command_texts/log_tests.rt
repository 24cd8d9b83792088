//! A kernel's log, from a reader to a writer. Opcodes and fields are those of the command descriptions.
use crate::command_texts::answered::{Kind, expect_answer};
use fake_streams::{Sink, Source};
use script::Status;
use std::io::ErrorKind;
use words::log_with_notes;

const PIPE: ErrorKind = ErrorKind::BrokenPipe;

const STE: &str = "CFGI_STE sid=5 leaf=1\n";

#[test]
fn halves_alone_are_noted(rt: HostRuntime) {
    let mut lines =
        "\n0x0000000500000003\nthe end\n0x00000000000000ff\n0x0000000000000000\n0x0000000500000003\n".as_bytes();
    let mut output = Vec::new(rt.alloc());
    let (_, found) = log_with_notes(rt.alloc(), &mut lines, &mut output);
    assert_eq!(rt;
        found.text(),
        "line 2: half a command: its second word was expected in the next line\n\
         line 6: half a command: its second word was expected in the next line\n"
    );
}

/// Two commands, each of two lines of 19 bytes.
const TWO: &str =
    "0x0000000500000003\n0x0000000000000001\n0x0000000000000030\n0x0000000000000000\n";

#[test]
fn failed_read_leaves_the_whole_commands_answered(rt: HostRuntime) {
    let mut input = Source::new(TWO.as_bytes(), 60, 2, PIPE);
    expect_answer(&rt, Kind::Log, &mut input, STE, Status::ReadFailed);
    let mut input = Source::new(TWO.as_bytes(), 37, 2, PIPE);
    expect_answer(&rt, Kind::Log, &mut input, "", Status::ReadFailed);
}

#[test]
fn log_that_is_read_byte_by_byte(rt: HostRuntime) {
    let mut input = Source::new(TWO.as_bytes(), 1, 0, PIPE);
    let both = "CFGI_STE sid=5 leaf=1\nTLBI_NSNH_ALL\n";
    expect_answer(&rt, Kind::Log, &mut input, both, Status::Good);
}

#[test]
fn failed_write_leaves_a_beginning_of_a_command(rt: HostRuntime) {
    let mut output = Sink::new(9, 2, PIPE);
    let ended = Kind::Log.status_of(rt.alloc(), &mut TWO.as_bytes(), &mut output);
    assert_eq!(rt;
        (ended, Some(output.text())),
        (Status::WriteFailed, STE.get(..9))
    );
}
