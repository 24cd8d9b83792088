//! Answers that are buffered, and many of them.
use crate::script_tests::lengths::serve_lengths;
use fake_streams::Source;
use script::ServeError;
use std::fmt::Write as _;
use std::io::{BufWriter, ErrorKind};

const PIPE: ErrorKind = ErrorKind::BrokenPipe;

#[test]
fn answers_are_flushed_before_the_next_read(rt: HostRuntime) {
    let mut input = Source::new(b"a\nbb\n".as_slice(), 2, 2, PIPE);
    let mut output = BufWriter::new(rt.alloc(), Vec::new(rt.alloc())).expect(&rt, "memory");
    let outcome = serve_lengths(rt.alloc(), &mut input, &mut output);
    let failed = matches!(outcome, Err(ServeError::Read(_)));
    let written = output.get_ref().as_slice();
    assert_eq!(rt; (failed, written), (true, b"1: 1\n".as_slice()));
}

#[test]
fn many_answers_are_written_in_parts(rt: HostRuntime) {
    let script = vec![in rt.alloc(); b'\n'; 200_000].expect(&rt, "memory");
    let mut text = String::new(rt.alloc());
    for line in 1..200_001 {
        write!(text, "{line}: 0\n").expect(&rt, "memory");
    }
    for most in [1, 100_000] {
        let mut input = Source::new(script.as_slice(), most, 0, PIPE);
        let mut output = Vec::new(rt.alloc());
        let ended = serve_lengths(rt.alloc(), &mut input, &mut output);
        let is_all = ended.is_ok() && output.as_slice() == text.as_bytes();
        assert!(rt; is_all, "{most}");
    }
}
