//! What the words of a command are told as. Opcodes and fields are those of the command descriptions.
use cmdcodec::{Raw, decode};
use decode::say_command;
use std::process::Abort;

/// Expects the words of a command to be told as its fault is displayed.
fn expect_fault<R: AllocGlobal + Abort>(rt: &R, lo: u64) {
    let mut told = String::new(rt.alloc());
    let raw = Raw { lo, hi: 0 };
    say_command(raw, &mut told).expect(rt, "there is memory");
    if let Err(ill) = decode(raw) {
        let shown = format!(in rt.alloc(); "illegal {ill}").expect(rt, "there is memory");
        assert_eq!(rt; told.as_str(), shown.as_str());
    }
}

#[test]
fn faults_are_told_as_they_are_displayed(rt: HostRuntime) {
    expect_fault(&rt, 0xff);
    expect_fault(&rt, 0x403);
    expect_fault(&rt, 0x3046);
}
