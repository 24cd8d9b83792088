//! Stress runs, from the command line on.
use crate::running::expect_run;

#[test]
fn a_report_that_cannot_be_written(rt: HostRuntime) {
    let words = [
        "stress",
        "--log2",
        "1",
        "--senders",
        "1",
        "--batches",
        "1",
        "--turns",
        "1",
    ];
    expect_run(&rt, "a write that fails", &words, "", (1, 1), (4, "", true));
}
