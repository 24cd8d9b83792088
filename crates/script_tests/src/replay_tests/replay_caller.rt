//! The caller that replay's README shows.
use replay::replay;
use script::Status;

#[test]
fn an_entry_that_goes(rt: HostRuntime) {
    let script = "ring 3 1 4 4\n\
                  fill ste 5 70\n\
                  send 0 03000000050000000100000000000000\n\
                  step\n";
    let mut input = script.as_bytes();
    let mut output = Vec::new(rt.alloc());
    let status = replay(rt.alloc(), &mut input, &mut output);
    assert_eq!(rt; status, Status::Good);
    let answers = "ring size 8\n\
                   filled\n\
                   sent 0 number 1\n\
                   applied CFGI_STE sid=5 leaf=1 removed=1\n";
    assert_eq!(rt; output.as_slice(), answers.as_bytes());
}
