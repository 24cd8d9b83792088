//! The caller that schedule's README shows.
use schedule::schedule;
use script::Status;

#[test]
fn an_exchange_that_is_lost(rt: HostRuntime) {
    let script = "ring 1 2\n\
                  look 0\n\
                  look 1\n\
                  reserve 1 03000000050000000100000000000000\n\
                  reserve 0 03000000050000000100000000000000\n";
    let mut input = script.as_bytes();
    let mut output = Vec::new(rt.alloc());
    let status = schedule(rt.alloc(), &mut input, &mut output);
    assert_eq!(rt; status, Status::Good);
    let answers = "ring size 2\n\
                   control 0 0 open\n\
                   control 0 0 open\n\
                   reserved 0 number 1\n\
                   lost 2 0 open\n";
    assert_eq!(rt; output.as_slice(), answers.as_bytes());
}
