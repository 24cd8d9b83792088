//! A hex dump, line by line: slots 4 and 5 of examples/linux/msi-2p7.image, and what `smmuq image` says of them.
use crate::command_texts::answered::{Kind, expect_answer};
use fake_streams::{Sink, Source};
use script::Status;
use std::io::ErrorKind;

const PIPE: ErrorKind = ErrorKind::BrokenPipe;

const TLBI: &str = "TLBI_NH_VA vmid=0 asid=7 leaf=1 addr=0x768400000 tg=1 num=0 scale=5\n";

/// Two lines of 51 bytes.
const TWO: &str = "000040 12 00 50 00 00 00 07 00 01 07 40 68 07 00 00 00\n\
    000050 46 10 c0 0f 00 00 00 00 50 10 99 43 00 00 00 00\n";

#[test]
fn failed_read_leaves_the_whole_lines_of_a_dump_answered(rt: HostRuntime) {
    let mut input = Source::new(TWO.as_bytes(), 60, 2, PIPE);
    expect_answer(&rt, Kind::Dump, &mut input, TLBI, Status::ReadFailed);
}

#[test]
fn failed_write_leaves_a_beginning_of_a_line(rt: HostRuntime) {
    let mut output = Sink::new(9, 2, PIPE);
    let ended = Kind::Dump.status_of(rt.alloc(), &mut TWO.as_bytes(), &mut output);
    assert_eq!(rt;
        (ended, Some(output.text())),
        (Status::WriteFailed, TLBI.get(..9))
    );
}
