//! Words and numbers, and what is left of a line after them.
use script::{next_below, next_below_or, next_u8, next_word, number, raw};
use std::alloc::Global;
use std::process::Abort;

/// The first word of what stands after `word `, and the rest of it, between bars.
fn answer(alloc: Global, asked: &str) -> Option<String> {
    let text = asked.strip_prefix("word ")?;
    let Some((first, rest)) = next_word(text.as_bytes()) else {
        return String::from_str(alloc, "none").ok();
    };
    let (first, rest) = (str::from_utf8(first).ok()?, str::from_utf8(rest).ok()?);
    format!(in alloc; "|{first}|{rest}|").ok()
}

fn expect_answers<R: AllocGlobal + Abort>(rt: &R, text: &str) {
    for line in text.lines() {
        let (asked, wanted) = line.split_once(" = ").unwrap_or((line, ""));
        let found = answer(rt.alloc(), asked).expect(rt, line);
        assert_eq!(rt; found.as_str(), wanted, "{line}");
    }
}

#[test]
fn words(rt: HostRuntime) {
    expect_answers(
        &rt,
        "word step = |step||\n\
         word   step 1  2  = |step| 1  2 |\n\
         word  1  2  = |1|  2 |\n\
         word a\tb = |a\tb||\n\
         word  = none\n\
         word    = none",
    );
}

// What no number and no command is stands in tests/replay.cases and tests/schedule.cases, but for an empty word, which no
// line has.
#[test]
fn numbers_and_a_mark(rt: HostRuntime) {
    assert_eq!(rt; number(b"0xfF".as_slice()), Some(255));
    assert_eq!(rt;
        next_u8(b" 255 7".as_slice()),
        Some((255, b" 7".as_slice()))
    );
    let below = next_below(1 << 20, b"1048575 7".as_slice());
    assert_eq!(rt; below, Some((1_048_575, b" 7".as_slice())));
    let mark = next_below_or(b"g".as_slice(), 1 << 16, b"g 1".as_slice());
    assert_eq!(rt; mark, Some((None, b" 1".as_slice())));
    assert!(rt; number(b"".as_slice()).is_none() && raw(b"".as_slice()).is_none());
}
