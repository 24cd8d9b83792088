//! Readers and writers that move a byte at a time, or fail.
use crate::served::{expect_failed_reads, expect_failed_writes, expect_in_pieces};
use script::Status;

const SCRIPT: &str = "ring 1 2\n\
                      look 0\n\
                      reserve 0 03000000050000000100000000000000\n\
                      write 0 0 0\n\
                      write 0 0 1\n\
                      flip 0 0\n\
                      test 0\n\
                      read 0 0\n\
                      advance";

const TEXT: &str = "ring size 2\n\
                    control 0 0 open\n\
                    reserved 0 number 1\n\
                    written\n\
                    written\n\
                    flipped 1\n\
                    ready\n\
                    word 0x500000003\n\
                    line 9: F4\n";

#[test]
fn answers_do_not_depend_on_the_pieces(rt: HostRuntime) {
    expect_in_pieces(&rt, SCRIPT, TEXT, Status::Refused);
}

#[test]
fn a_failed_read_leaves_the_answers_of_the_lines_read(rt: HostRuntime) {
    expect_failed_reads(
        &rt,
        "ring 1 2 = ring size 2\n\
         # nothing\n\
         look 0 = control 0 0 open\n\
         test 0 = not ready",
        "ask 1",
    );
}

#[test]
fn nothing_is_written_after_a_failed_write(rt: HostRuntime) {
    expect_failed_writes(&rt, SCRIPT, TEXT);
}
