//! The memory of queues. A slot holds lo and then hi, each with its lowest byte first.
use crate::images::answered::status_of;
use fake_streams::{Sink, Source};
use image::Asked;
use script::Status;
use std::io::ErrorKind;

const PIPE: ErrorKind = ErrorKind::BrokenPipe;

/// Four slots: CFGI_STE of stream 5 as a leaf, TLBI_NSNH_ALL, an unknown opcode and CMD_SYNC.
const IMAGE: [u8; 64] = [
    0x03, 0, 0, 0, 5, 0, 0, 0, 1, 0, 0, 0, 0, 0, 0, 0, //
    0x30, 0, 0, 0, 0, 0, 0, 0, 0, 0, 0, 0, 0, 0, 0, 0, //
    0xff, 0, 0, 0, 0, 0, 0, 0, 0, 0, 0, 0, 0, 0, 0, 0, //
    0x46, 0, 0, 0, 0, 0, 0, 0, 0, 0, 0, 0, 0, 0, 0, 0, //
];

/// Four slots with CONS 3 and PROD 5.
const ASKED: Asked = Asked {
    log2: Some(2),
    prod: Some(5),
    cons: Some(3),
    all: false,
    hex: false,
    errors: None,
};

#[test]
fn failed_read_writes_nothing(rt: HostRuntime) {
    let mut input = Source::new(IMAGE.as_slice(), 40, 2, PIPE);
    let mut output = Vec::new(rt.alloc());
    let ended = status_of(rt.alloc(), &ASKED, &mut input, &mut output);
    assert_eq!(rt; ended, Status::ReadFailed);
    assert!(rt; output.as_slice().is_empty());
}

#[test]
fn failed_write_leaves_a_beginning(rt: HostRuntime) {
    let mut input = Source::new(IMAGE.as_slice(), 7, 0, PIPE);
    let mut output = Sink::new(10, 3, PIPE);
    let ended = status_of(rt.alloc(), &ASKED, &mut input, &mut output);
    assert_eq!(rt; ended, Status::WriteFailed);
    assert_eq!(rt; output.text(), "size 4\nprod 0x000000");
}
