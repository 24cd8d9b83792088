//! Queues whose memory comes as the text of a hex dump.
use crate::images::answered::status_of;
use fake_streams::{Sink, Source};
use image::Asked;
use script::Status;
use std::io::ErrorKind;

/// As xxd prints them: CFGI_STE of stream 5 as a leaf, TLBI_NSNH_ALL, an unknown opcode and CMD_SYNC.
const SLOTS: &str = "00000000: 0300 0000 0500 0000 0100 0000 0000 0000  ................\n\
                     00000010: 3000 0000 0000 0000 0000 0000 0000 0000  0...............\n\
                     00000020: ff00 0000 0000 0000 0000 0000 0000 0000  ................\n\
                     00000030: 4600 0000 0000 0000 0000 0000 0000 0000  F...............\n";

fn of_dump(prod: u32, cons: u32) -> Asked {
    Asked {
        log2: Some(2),
        prod: Some(prod),
        cons: Some(cons),
        all: false,
        hex: true,
        errors: None,
    }
}

/// Then no line is read.
#[test]
fn registers_are_judged_before_lines(rt: HostRuntime) {
    let mut input = "*\n".as_bytes();
    let mut output = Vec::new(rt.alloc());
    let ended = status_of(rt.alloc(), &of_dump(8, 8), &mut input, &mut output);
    assert_eq!(rt; ended, Status::Refused);
    assert_eq!(rt; output.as_slice(), b"bad prod\n".as_slice());
    assert_eq!(rt; input, b"*\n".as_slice());
}

#[test]
fn failures_in_mid_stream(rt: HostRuntime) {
    let mut input = Source::new(SLOTS.as_bytes(), 40, 2, ErrorKind::BrokenPipe);
    let mut output = Vec::new(rt.alloc());
    let ended = status_of(rt.alloc(), &of_dump(5, 3), &mut input, &mut output);
    assert_eq!(rt; ended, Status::ReadFailed);
    assert!(rt; output.as_slice().is_empty());
    let mut input = SLOTS.as_bytes();
    let mut output = Sink::new(10, 3, ErrorKind::BrokenPipe);
    let ended = status_of(rt.alloc(), &of_dump(5, 3), &mut input, &mut output);
    assert_eq!(rt; ended, Status::WriteFailed);
    assert_eq!(rt; output.text(), "size 4\nprod 0x000000");
}
