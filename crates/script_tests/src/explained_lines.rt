//! What is said of nothing. tests/replay.cases and tests/schedule.cases have what is said of lines.
use explanations::{Script, explain};
use script::LastLine;
use std::alloc::AllocError;

#[test]
fn a_line_that_can_be_read_is_not_said_to_be_bad(rt: HostRuntime) -> Result<(), AllocError> {
    let last = LastLine {
        number: 7,
        text: Vec::from_slice(rt.alloc(), b"ring 1 1 1 1")?,
        answer: Vec::from_slice(rt.alloc(), b"line 7: bad line\n")?,
    };
    let told = explain(rt.alloc(), Script::Replay, &last)?;
    assert!(rt; told.is_none());
    Ok(())
}
