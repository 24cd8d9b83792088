//! The caller that words' README shows.
use script::Status;
use words::words;

#[test]
fn two_words_of_a_log(rt: HostRuntime) {
    let mut input = b"0x0000000500000003 0x1\n".as_slice();
    let mut output = Vec::new(rt.alloc());
    let status = words(rt.alloc(), &mut input, &mut output);
    assert_eq!(rt; status, Status::Good);
    assert!(rt; output.as_slice() == b"CFGI_STE sid=5 leaf=1\n".as_slice());
}
