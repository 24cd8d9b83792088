//! The exit status where a stream fails.
use crate::running::run;
use std::process::Abort;
use std::thread::Threads;

/// Runs the program on one word, with the read and the write of these numbers failing. Expects status 4, and this text
/// on standard error.
fn expect_failed<R: Threads + AllocGlobal + Abort + Sync>(
    rt: &R,
    word: &str,
    bad: (usize, usize),
    wanted: &str,
) {
    let ran = run(rt, &[word], "ring 3 1 4 4\n", bad);
    assert_eq!(rt;
        (ran.status, ran.faults.inner().text()),
        (4, wanted),
        "{word}"
    );
}

#[test]
fn exit_statuses(rt: HostRuntime) {
    // A read that fails, a pipe that is closed, and help that goes to one.
    let unread = "smmuq: standard input: it couldn't be read\n";
    expect_failed(&rt, "replay", (1, 0), unread);
    expect_failed(&rt, "replay", (0, 1), "");
    expect_failed(&rt, "--help", (0, 1), "");
}
