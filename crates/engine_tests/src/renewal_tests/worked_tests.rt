//! A queue goes on in a new ring.
use crate::renewal_tests::calls::expect_answers;

// The driver unmaps page 7 and sends its invalidation; it is mapped anew, and then cached. A smaller ring and smaller
// caches serve too: they are as large as was asked for. The new ring numbers from 1, and what is sent through it
// removes what was filled before it began.
#[test]
fn entries_live_on_and_numbers_begin_anew(rt: HostRuntime) {
    expect_answers(
        &rt,
        100,
        "fill 5 70 = filled\n\
         fill 6 71 = filled\n\
         send 7 = sender 0 number 1\n\
         run = applied 2 removed 0\n\
         fill 7 72 = filled\n\
         held 7 = 72 born 2\n\
         renew 3 2 3 = reserved 2 taken 2 applied 2 held 3\n\
         taken = 0\n\
         held 5 6 7 = 70 born 0, 71 born 0, 72 born 0\n\
         fill 8 73 = C1\n\
         send 6 = sender 0 number 1\n\
         run = applied 2 removed 1\n\
         done = 1\n\
         held 5 6 7 = 70 born 0, none, 72 born 0",
    );
}

#[test]
fn a_sender_goes_on_past_its_last_batch(rt: HostRuntime) {
    expect_answers(
        &rt,
        1,
        "fill 9 0 = filled\n\
         send 5 = sender 0 number 1\n\
         send 5 = Q5\n\
         run = applied 2 removed 0\n\
         renew 2 1 8 = reserved 2 taken 2 applied 2 held 1\n\
         held 9 = 0 born 0\n\
         fill 9 1 = filled\n\
         send 5 = sender 0 number 1\n\
         send 5 = Q5\n\
         run = applied 2 removed 0\n\
         renew 2 1 8 = reserved 2 taken 2 applied 2 held 1\n\
         held 9 = 1 born 0\n\
         fill 9 2 = filled\n\
         send 5 = sender 0 number 1\n\
         send 5 = Q5\n\
         run = applied 2 removed 0\n\
         renew 2 1 8 = reserved 2 taken 2 applied 2 held 1\n\
         held 9 = 2 born 0",
    );
}
