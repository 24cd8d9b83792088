//! Runs of the program on fake streams.
use fake_streams::{Sink, Source};
use program::{Watched, program};
use std::io::{ErrorKind, Read, Write};
use std::process::Abort;
use std::thread::Threads;

pub const PIPE: ErrorKind = ErrorKind::BrokenPipe;

/// What the program wrote, and its exit status.
#[derive(Drop)]
pub struct Ran {
    pub status: u8,
    pub output: Watched<Sink>,
    pub faults: Watched<Sink>,
}

impl Ran {
    /// Returns the status, what was written to standard output, and whether no faults were told.
    pub fn told(&self) -> (u8, &str, bool) {
        (
            self.status,
            self.output.inner().text(),
            self.faults.inner().text().is_empty(),
        )
    }

    /// Whether standard output was flushed, and whether the output of faults was.
    pub fn flushed(&self) -> (bool, bool) {
        (
            self.output.inner().flushes > 0,
            self.faults.inner().flushes > 0,
        )
    }
}

// The theorem isn't passed on, since it would be costly in each test.
pub fn status_of<'a, A: Threads + AllocGlobal + Sync, I: Read, O: Write, F: Write>(
    rt: &A,
    words: &'a [&'a str],
    input: &mut I,
    output: &mut Watched<O>,
    faults: &mut Watched<F>,
) -> u8 {
    program(rt, words, input, output, faults)
}

/// Runs the program, with the read and the write to `output` of these numbers failing, counted from 1.
pub fn run<'a, A: Threads + AllocGlobal + Sync>(
    rt: &A,
    words: &'a [&'a str],
    script: &str,
    (bad_read, bad_write): (usize, usize),
) -> Ran {
    let mut input = Source::new(script.as_bytes(), 100, bad_read, PIPE);
    let mut output = Watched::new(Sink::new(100, bad_write, PIPE));
    let mut faults = Watched::new(Sink::new(100, 0, PIPE));
    let status = status_of(rt, words, &mut input, &mut output, &mut faults);
    Ran {
        status,
        output,
        faults,
    }
}

/// Runs the program, and expects this status, this text on standard output, and faults to be told or not.
pub fn expect_run<'a, A: Threads + AllocGlobal + Abort + Sync>(
    rt: &A,
    name: &str,
    words: &'a [&'a str],
    script: &str,
    bad: (usize, usize),
    wanted: (u8, &str, bool),
) {
    let ran = run(rt, words, script, bad);
    assert_eq!(rt; ran.told(), wanted, "{name}");
}
