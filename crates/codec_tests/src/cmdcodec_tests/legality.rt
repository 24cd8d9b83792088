//! Illegal words, and which fault is told.
use crate::answers::{expect_answers, none};
use crate::cmdcodec_tests::words::{raw, words};
use cmdcodec::{KeptRaw, decode, first_ill};
use std::alloc::Global;

/// The fault of illegal words, if `decode` and `first_ill` tell the same: its name, and its text.
pub fn fault(alloc: Global, asked: &str) -> Option<String> {
    let raw = raw(asked)?;
    let Err(ill) = decode(raw) else {
        return None;
    };
    if first_ill(raw) != Some(ill) {
        return None;
    }
    format!(in alloc; "{ill:?}, {ill}").ok()
}

/// Returns the words of a kept command.
pub fn kept(alloc: Global, asked: &str) -> Option<String> {
    match KeptRaw::new(raw(asked)?) {
        Some(kept) => words(alloc, kept.get()),
        None => none(alloc),
    }
}

// Bit 10 makes no command of an opcode that is none. A Secure stream is told before the size.
#[test]
fn illegal_words_have_their_faults(rt: HostRuntime) {
    expect_answers(
        &rt,
        "fault 0x00 0 = UnknownOpcode, ILL1: unknown opcode\n\
         fault 0x07 0 = UnknownOpcode, ILL1: unknown opcode\n\
         fault 0xff 0 = UnknownOpcode, ILL1: unknown opcode\n\
         fault 0x0407 0 = UnknownOpcode, ILL1: unknown opcode\n\
         fault 0x0401 0 = SecureStream, ILL2: a Secure stream\n\
         fault 0x0402 0 = SecureStream, ILL2: a Secure stream\n\
         fault 0x0000000500000403 1 = SecureStream, ILL2: a Secure stream\n\
         fault 0x0000000500000404 1 = SecureStream, ILL2: a Secure stream\n\
         fault 0x0405 0 = SecureStream, ILL2: a Secure stream\n\
         fault 0x0406 0 = SecureStream, ILL2: a Secure stream\n\
         fault 0x0000000700000440 0 = SecureStream, ILL2: a Secure stream\n\
         fault 0x0000000700000440 0x35 = SecureStream, ILL2: a Secure stream\n\
         fault 0x3046 0 = ReservedSignal, ILL3: a reserved completion signal\n\
         fault 0x0000000700000040 0x35 = OversizedSpan, ILL4: an oversized span\n\
         fault 0x0000000700000040 0x3f = OversizedSpan, ILL4: an oversized span",
    );
}

#[test]
fn words_are_kept_where_they_are_legal(rt: HostRuntime) {
    expect_answers(
        &rt,
        "kept 0x01 9 = 0x1 0x9\n\
         kept 0x02 9 = 0x2 0x9\n\
         kept 0x0441 9 = 0x441 0x9\n\
         kept 0x44 9 = 0x44 0x9\n\
         kept 0x45 9 = 0x45 0x9\n\
         kept 0x0401 9 = none\n\
         kept 0x03 9 = none\n\
         kept 0x07 9 = none",
    );
}
