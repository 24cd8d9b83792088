//! Readers and writers that move a few bytes a call, and fail or are interrupted.
use crate::script_tests::lengths::serve_lengths;
use fake_streams::{Sink, Source};
use script::{Ending, ServeError};
use std::io::ErrorKind;
use std::process::Abort;

const PIPE: ErrorKind = ErrorKind::BrokenPipe;

/// Serves a script in pieces of several lengths, and expects this text and this ending each time.
fn expect_served<R: AllocGlobal + Abort>(rt: &R, script: &str, text: &str, ending: Ending) {
    for most in [1, 3, 100_000] {
        let mut input = Source::new(script.as_bytes(), most, 0, PIPE);
        let mut output = Sink::new(most, 0, PIPE);
        let ended = serve_lengths(rt.alloc(), &mut input, &mut output).ok();
        assert_eq!(rt;
            (ended, output.text()),
            (Some(ending), text),
            "{script} by {most}"
        );
    }
}

#[test]
fn answers_do_not_depend_on_the_pieces(rt: HostRuntime) {
    expect_served(&rt, "", "", Ending::Finished);
    expect_served(&rt, "\n", "1: 0\n", Ending::Finished);
    expect_served(&rt, "a\nbb\n", "1: 1\n2: 2\n", Ending::Finished);
    expect_served(&rt, "a\nbb", "1: 1\n2: 2\n", Ending::Finished);
    let stopped = "1: 1\nstopped at 2\n";
    expect_served(&rt, "a\nstop\nb\n", stopped, Ending::Refused);
    expect_served(&rt, "stop", "stopped at 1\n", Ending::Refused);
}

/// Serves a line of `length` bytes with this end, and expects this text.
fn expect_long<R: AllocGlobal + Abort>(rt: &R, length: usize, end: &str, text: &str) {
    let mut script = vec![in rt.alloc(); b'x'; length].expect(rt, "there is memory");
    let pushed = script.extend_from_slice(end.as_bytes());
    pushed.expect(rt, "there is memory");
    for most in [1, 100_000] {
        let mut input = Source::new(script.as_slice(), most, 0, PIPE);
        let mut output = Sink::new(100, 0, PIPE);
        let ended = serve_lengths(rt.alloc(), &mut input, &mut output);
        let told = (ended.is_ok(), output.text(), input.least_room >= 4096);
        assert_eq!(rt; told, (true, text, true), "{length} by {most}");
    }
}

#[test]
fn a_long_line_needs_no_end(rt: HostRuntime) {
    expect_long(&rt, 4096, "", "1: 4096\n");
    expect_long(&rt, 4096, "\n", "1: 4096\n");
    expect_long(&rt, 4097, "", "line 1: long line\n");
    expect_long(&rt, 4097, "\n", "line 1: long line\n");
    expect_long(&rt, 70_000, "\n", "line 1: long line\n");
}

/// Has the read of this number fail, and expects this text.
fn expect_failed_read<R: AllocGlobal + Abort>(rt: &R, bad: usize, text: &str) {
    let mut input = Source::new(b"a\nbb\nccc\n".as_slice(), 2, bad, PIPE);
    let mut output = Sink::new(100, 0, PIPE);
    let outcome = serve_lengths(rt.alloc(), &mut input, &mut output);
    let told = (matches!(outcome, Err(ServeError::Read(_))), output.text());
    assert_eq!(rt; told, (true, text), "{bad}");
}

#[test]
fn a_failed_read_waits_for_no_answer(rt: HostRuntime) {
    // With two bytes a read, the first line ends at the 1st call, the second at the 3rd, and the third at the 5th.
    expect_failed_read(&rt, 1, "");
    expect_failed_read(&rt, 2, "1: 1\n");
    expect_failed_read(&rt, 3, "1: 1\n");
    expect_failed_read(&rt, 4, "1: 1\n2: 2\n");
    expect_failed_read(&rt, 5, "1: 1\n2: 2\n");
    expect_failed_read(&rt, 6, "1: 1\n2: 2\n3: 3\n");
}

/// Has the write of this number fail, and expects this text.
fn expect_failed_write<R: AllocGlobal + Abort>(rt: &R, bad: usize, text: &str) {
    let mut input = Source::new(b"a\nbb\n".as_slice(), 100, 0, PIPE);
    let mut output = Sink::new(4, bad, PIPE);
    let outcome = serve_lengths(rt.alloc(), &mut input, &mut output);
    let failed = matches!(outcome, Err(ServeError::Write(_)));
    assert_eq!(rt; (failed, output.calls, output.text()), (true, bad, text));
}

#[test]
fn nothing_is_written_after_a_failed_write(rt: HostRuntime) {
    expect_failed_write(&rt, 1, "");
    expect_failed_write(&rt, 2, "1: 1");
    expect_failed_write(&rt, 3, "1: 1\n2: ");
}

#[test]
fn a_writer_that_takes_nothing_has_failed(rt: HostRuntime) {
    let script = vec![in rt.alloc(); b'\n'; 1000].expect(&rt, "there is memory");
    let mut input = Source::new(script.as_slice(), 100, 0, PIPE);
    let mut output = Sink::new(100, 0, PIPE);
    let outcome = serve_lengths(rt.alloc(), &mut input, &mut output);
    let failed = matches!(outcome, Err(ServeError::Write(_)));
    assert_eq!(rt; (failed, output.text().len()), (true, 4096));
}

#[test]
fn an_interrupted_call_is_made_again(rt: HostRuntime) {
    for bad in [1, 2, 3] {
        let mut input = Source::new(b"a\nbb\n".as_slice(), 2, bad, ErrorKind::Interrupted);
        let mut output = Sink::new(2, bad, ErrorKind::Interrupted);
        let ended = serve_lengths(rt.alloc(), &mut input, &mut output);
        let told = (ended.is_ok(), output.text());
        assert_eq!(rt; told, (true, "1: 1\n2: 2\n"), "{bad}");
    }
}

// Nothing but the run allocates here, so that each of its allocations can be made to fail.
#[test]
fn no_memory_is_told_of_last(rt: HostRuntime) {
    let mut input = Source::new(b"a\nbb\n".as_slice(), 100, 0, PIPE);
    let mut output = Sink::new(100, 0, PIPE);
    let outcome = serve_lengths(rt.alloc(), &mut input, &mut output);
    let text = output.text();
    let is_told = match outcome {
        Ok(_) => text == "1: 1\n2: 2\n",
        Err(_) => text == "no memory\n" || text == "1: 1\nno memory\n",
    };
    assert!(rt; is_told);
}
