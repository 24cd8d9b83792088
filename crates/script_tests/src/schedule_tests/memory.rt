//! Allocations that fail.
use crate::served::status_of;
use fake_streams::{Sink, answers_in, ends_without_memory};
use script::Status;
use std::io::ErrorKind;

const SCRIPT: &str = "ring 1 2\n\
                      look 0\n\
                      reserve 0 03000000050000000100000000000000\n\
                      write 0 0 0\n";

/// The answers to the lines of the script, in order.
const ANSWERS: [&str; 4] = [
    "ring size 2\n",
    "control 0 0 open\n",
    "reserved 0 number 1\n",
    "written\n",
];

// Nothing but the schedule allocates here, so that each of its allocations can be made to fail, and
// what comes last is printed.
#[test]
fn every_allocation_of_a_schedule(rt: HostRuntime) {
    let mut input = SCRIPT.as_bytes();
    let mut output = Sink::new(512, 0, ErrorKind::BrokenPipe);
    let ended = status_of(rt.alloc(), &mut input, &mut output);
    let text = output.text();
    let outcome = match ended {
        Status::Good if answers_in(&ANSWERS, text) == Some(ANSWERS.len()) => "whole",
        Status::NoMemory if ends_without_memory(&ANSWERS, text) => "refused",
        _ => "wrong",
    };
    assert_ne!(rt; outcome, "wrong", "{ended:?}: {text}");
    println!(rt; "every_allocation_of_a_schedule: {outcome}").expect(&rt, "the line is printed");
}
