//! The caller that explanations' README shows.
use explanations::{Script, explain};
use script::LastLine;
use std::alloc::AllocError;

#[test]
fn a_number_that_is_none(rt: HostRuntime) -> Result<(), AllocError> {
    let last = LastLine {
        number: 3,
        text: Vec::from_slice(rt.alloc(), b"inval 0 7 0X3 1 1")?,
        answer: Vec::from_slice(rt.alloc(), b"line 3: bad line\n")?,
    };
    let told = explain(rt.alloc(), Script::Replay, &last)?;
    let wanted = "line 3: word 4: a number from 0 to 65535 was expected, found \"0X3\"";
    assert_eq!(rt; told.expect(&rt, "a text").as_str(), wanted);
    Ok(())
}
