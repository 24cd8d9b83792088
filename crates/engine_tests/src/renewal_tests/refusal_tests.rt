//! A queue that isn't renewed goes on.
use crate::renewal_tests::calls::expect_answers;

// The queue goes on: what was sent is taken, and its sender is told.
#[test]
fn a_batch_that_is_not_taken_waits(rt: HostRuntime) {
    expect_answers(
        &rt,
        100,
        "fill 5 70 = filled\n\
         fill 6 71 = filled\n\
         send 5 = sender 0 number 1\n\
         renew 4 100 3 = Q6 (Q6: a command waits to be taken)\n\
         done = 0\n\
         run = applied 2 removed 1\n\
         done = 1\n\
         renew 4 100 3 = reserved 2 taken 2 applied 2 held 1\n\
         held 5 = none\n\
         held 6 = 71 born 0",
    );
}

// Once it is replaced the queue is renewed, and the registers of its error begin anew.
#[test]
fn a_command_that_stopped_the_engine_waits(rt: HostRuntime) {
    expect_answers(
        &rt,
        100,
        "send illegal = sender 0 number 1\n\
         run = stopped\n\
         renew 4 100 3 = Q6 (Q6: a command waits to be taken)\n\
         replace = acknowledged\n\
         run = replaced\n\
         run = applied 1 removed 0\n\
         error = 0 1 1\n\
         renew 4 100 3 = reserved 2 taken 2 applied 1 held 0\n\
         error = 0 0 0",
    );
}

// Each time the entries stay.
#[test]
fn sizes_that_do_not_serve(rt: HostRuntime) {
    expect_answers(
        &rt,
        100,
        "fill 5 70 = filled\n\
         fill 6 71 = filled\n\
         fill 7 72 = filled\n\
         renew 4 100 2 = C1 (C1: the caches are full)\n\
         held 5 6 7 = 70 born 0, 71 born 0, 72 born 0\n\
         renew 4 100 0 = C4 (C4: the capacity isn't 1 to 65,536)\n\
         held 5 6 7 = 70 born 0, 71 born 0, 72 born 0\n\
         renew 4 100 65537 = C4 (C4: the capacity isn't 1 to 65,536)\n\
         held 5 6 7 = 70 born 0, 71 born 0, 72 born 0\n\
         renew 0 100 3 = N1 (N1: the ring isn't of 2 to 524,288 slots)\n\
         held 5 6 7 = 70 born 0, 71 born 0, 72 born 0\n\
         renew 20 100 3 = N1 (N1: the ring isn't of 2 to 524,288 slots)\n\
         held 5 6 7 = 70 born 0, 71 born 0, 72 born 0\n\
         renew 4 0 3 = N3 (N3: a sender may reserve no batch)\n\
         held 5 6 7 = 70 born 0, 71 born 0, 72 born 0\n\
         renew 0 0 0 = C4 (C4: the capacity isn't 1 to 65,536)\n\
         held 5 6 7 = 70 born 0, 71 born 0, 72 born 0\n\
         renew 0 0 2 = N1 (N1: the ring isn't of 2 to 524,288 slots)\n\
         held 5 6 7 = 70 born 0, 71 born 0, 72 born 0\n\
         renew 4 0 2 = N3 (N3: a sender may reserve no batch)\n\
         held 5 6 7 = 70 born 0, 71 born 0, 72 born 0\n\
         renew 19 4294967295 65536 = reserved 0 taken 0 applied 0 held 3\n\
         held 5 6 7 = 70 born 0, 71 born 0, 72 born 0\n\
         renew 1 1 3 = reserved 0 taken 0 applied 0 held 3\n\
         held 5 6 7 = 70 born 0, 71 born 0, 72 born 0",
    );
}
