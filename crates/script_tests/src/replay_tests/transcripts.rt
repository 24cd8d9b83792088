//! Transcripts of replays, as a driver's author pastes them: each line of the script after `> `, and below it the lines
//! that answer it.
use replay::replay;
use script::Status;
use std::alloc::{AllocError, Global};
use std::io::{Read, Write};
use std::process::Abort;

// The theorem of `replay` isn't passed on, since it would be costly in each test.
/// Replays a script.
pub fn status_of<R: Read, W: Write>(alloc: Global, input: &mut R, output: &mut W) -> Status {
    replay(alloc, input, output)
}

/// Replays a script, and expects this text and this status.
pub fn expect_answer<R: AllocGlobal + Abort>(
    rt: &R,
    name: &str,
    script: &[u8],
    text: &str,
    status: Status,
) {
    let mut input = script;
    let mut output = Vec::new(rt.alloc());
    let ended = status_of(rt.alloc(), &mut input, &mut output);
    let answer = str::from_utf8(output.as_slice()).unwrap_or("no text");
    assert_eq!(rt; (ended, answer), (status, text), "{name}");
}

/// Returns the script of a transcript, and its answers.
pub fn halves(alloc: Global, transcript: &str) -> Result<(String, String), AllocError> {
    let mut script = String::new(alloc);
    let mut answers = String::new(alloc);
    for line in transcript.lines() {
        let (half, text) = match line.strip_prefix("> ") {
            Some(asked) => (&mut script, asked),
            None => (&mut answers, line),
        };
        half.push_str(text)?;
        half.push_str("\n")?;
    }
    Ok((script, answers))
}

/// How many bytes a transcript's answers have to those lines whose ends are among the first `bytes` bytes of its
/// script.
pub fn answered(transcript: &str, bytes: usize) -> usize {
    let mut read = 0usize;
    let mut told = 0usize;
    for line in transcript.lines() {
        match line.strip_prefix("> ") {
            Some(asked) => read = read.saturating_add(asked.len()).saturating_add(1),
            None if read <= bytes => told = told.saturating_add(line.len()).saturating_add(1),
            None => {}
        }
    }
    told
}
