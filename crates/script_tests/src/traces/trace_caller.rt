//! The caller that trace's README shows.
use script::Status;
use trace::trace;

#[test]
fn a_fill_that_came_too_late(rt: HostRuntime) {
    let log = "walk 1\n\
               command 03000000050000000100000000000000\n\
               fill 1 ste 5 70\n\
               did filled\n";
    let mut input = log.as_bytes();
    let mut output = Vec::new(rt.alloc());
    let status = trace(rt.alloc(), &mut input, &mut output);
    assert_eq!(rt; status, Status::Refused);
    let answers = "walking\n\
                   applied CFGI_STE sid=5 leaf=1 removed=0\n\
                   overtaken\n\
                   line 4: wrong: overtaken is right\n";
    assert_eq!(rt; output.as_slice(), answers.as_bytes());
}
