//! Words that are decoded, from the command line on.
use crate::running::{expect_run, run};
use program::decode_text;
use std::process::Abort;
use std::thread::Threads;

fn expect_failed_write<R: Threads + AllocGlobal + Abort + Sync>(rt: &R, name: &str, word: &str) {
    expect_run(rt, name, &["decode", word], "", (1, 1), (4, "", true));
}

#[test]
fn a_write_that_fails(rt: HostRuntime) {
    let legal = "03000000050000000100000000000000";
    expect_failed_write(&rt, "a legal command", legal);
    let illegal = "ff000000000000000000000000000000";
    expect_failed_write(&rt, "an illegal one", illegal);
}

#[test]
fn a_text_has_no_line_end(rt: HostRuntime) {
    let told = decode_text(rt.alloc(), "04000000000000001f00000000000000");
    let (text, is_legal) = told.expect(&rt, "there is memory");
    let wanted = ("CFGI_STE_RANGE sid=0 range=31", true);
    assert_eq!(rt; (text.as_str(), is_legal), wanted);
}

// Nothing but the program allocates here, so that each of its allocations can be made to fail, and
// what comes last is printed.
#[test]
fn every_allocation_of_decode(rt: HostRuntime) {
    let words = ["decode", "46100000010000000000004000000000"];
    let ran = run(&rt, &words, "", (1, 0));
    let outcome = match ran.told() {
        (0, "CMD_SYNC cs=1 msh=0 attr=0 data=1 addr=0x40000000\n", true) => "whole",
        (3, "no memory\n", false) => "refused",
        _ => "wrong",
    };
    assert_ne!(rt; outcome, "wrong");
    println!(rt; "every_allocation_of_decode: {outcome}").expect(&rt, "the line is printed");
}
