//! Allocations that fail. Only a replay allocates in these tests, so that each of its allocations can be made to fail.
//! A test passes either way, and prints how it went.
mod blocks_of_streams;
mod global_entries;
mod replaced_entry;
mod smallest_ring;

use crate::replay_tests::transcripts::status_of;
use fake_streams::{Sink, answers_in, ends_without_memory};
use script::Status;
use std::io::ErrorKind;
use std::process::Abort;

/// Whether a text is one of some texts, each given in two parts.
fn is_one_of(texts: &[(&str, &str)], text: &str) -> bool {
    for (front, rest) in texts {
        if text.strip_prefix(*front) == Some(*rest) {
            return true;
        }
    }
    false
}

/// Replays a script, and returns how it went: `whole`, with the answers to all its lines; or `refused`, with a text in
/// which a fill was refused, or with the answers to some lines and then the line `no memory`.
pub fn expect_whole_or_refused<R: AllocGlobal + Abort>(
    rt: &R,
    script: &str,
    answers: &[&str],
    refused: &[(&str, &str)],
) -> &'static str {
    let mut input = script.as_bytes();
    let mut output = Sink::new(512, 0, ErrorKind::BrokenPipe);
    let ended = status_of(rt.alloc(), &mut input, &mut output);
    let text = output.text();
    let outcome = match ended {
        Status::Good if answers_in(answers, text) == Some(answers.len()) => "whole",
        Status::Good if is_one_of(refused, text) => "refused",
        Status::NoMemory if ends_without_memory(answers, text) => "refused",
        _ => "wrong",
    };
    assert_ne!(rt; outcome, "wrong", "{ended:?}: {text}");
    outcome
}
