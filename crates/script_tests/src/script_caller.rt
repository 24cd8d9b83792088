//! The caller that script's README shows.
use cmdcodec::Raw;
use script::{is_end, next_u32, next_word, raw};

#[test]
fn a_line_that_sends(rt: HostRuntime) {
    let line = b"send 0x1  03000000050000000100000000000000 ";
    let (name, rest) = next_word(line).expect(&rt, "a name");
    assert_eq!(rt; name, b"send".as_slice());
    let (sender, rest) = next_u32(rest).expect(&rt, "a number");
    assert_eq!(rt; sender, 1);
    let (word, rest) = next_word(rest).expect(&rt, "a command");
    assert_eq!(rt;
        raw(word),
        Some(Raw {
            lo: 0x0000_0005_0000_0003,
            hi: 1
        })
    );
    assert!(rt; is_end(rest));
}
