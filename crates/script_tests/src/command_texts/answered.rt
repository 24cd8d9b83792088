//! The answers to lines, by their kind.
use encode::encode;
use script::Status;
use std::alloc::Global;
use std::io::{Read, Write};
use std::process::Abort;
use words::{hex_dump_with_notes, log_with_notes, words};

/// A kind of lines.
#[derive(Clone, Copy)]
pub enum Kind {
    /// Texts of commands, which `encode` answers.
    Texts,
    /// Words of commands, which `words` answers.
    Words,
    /// A kernel's log, whose commands `log_with_notes` answers.
    Log,
    /// A hex dump, whose lines `hex_dump_with_notes` answers.
    Dump,
}

impl Kind {
    // The theorems of `encode` and `words` aren't passed on, since they would be costly in each test.
    pub fn status_of<R: Read, W: Write>(
        self,
        alloc: Global,
        input: &mut R,
        output: &mut W,
    ) -> Status {
        match self {
            Kind::Texts => encode(alloc, input, output),
            Kind::Words => words(alloc, input, output),
            Kind::Log => log_with_notes(alloc, input, output).0,
            Kind::Dump => hex_dump_with_notes(alloc, input, output).0,
        }
    }
}

/// Answers what a reader gives, and expects this text and this status.
pub fn expect_answer<A: AllocGlobal + Abort, R: Read>(
    rt: &A,
    kind: Kind,
    input: &mut R,
    text: &str,
    status: Status,
) {
    let mut output = Vec::new(rt.alloc());
    let ended = kind.status_of(rt.alloc(), input, &mut output);
    let answer = str::from_utf8(output.as_slice()).unwrap_or("no text");
    assert_eq!(rt; (ended, answer), (status, text));
}
