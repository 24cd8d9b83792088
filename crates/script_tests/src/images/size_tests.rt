//! The largest queue and one larger, which no run of the program is given.
use crate::images::answered::status_of;
use image::Asked;
use script::Status;
use std::process::Abort;

/// Shows so many bytes of zeros with PROD and CONS 2, and expects this text and this status.
fn expect<R: AllocGlobal + Abort>(rt: &R, log2: Option<u32>, bytes: usize, wanted: (&str, Status)) {
    let asked = Asked {
        log2,
        prod: Some(2),
        cons: Some(2),
        all: false,
        hex: false,
        errors: None,
    };
    let zeros = vec![in rt.alloc(); 0u8; bytes].expect(rt, "there is memory");
    let mut input = zeros.as_slice();
    let mut output = Vec::new(rt.alloc());
    let ended = status_of(rt.alloc(), &asked, &mut input, &mut output);
    let answer = str::from_utf8(output.as_slice()).unwrap_or("no text");
    assert_eq!(rt; (answer, ended), wanted);
}

#[test]
fn largest_queue_and_one_larger(rt: HostRuntime) {
    let text = "size 524288\nprod 0x00000002\ncons 0x00000002\nerr 0\nwaiting 0\n";
    expect(&rt, None, 8_388_608, (text, Status::Good));
    let text = "bad length 16777216\n";
    expect(&rt, None, 16_777_216, (text, Status::Refused));
    // The command line has no log2 of 20.
    expect(&rt, Some(20), 64, ("bad log2\n", Status::Refused));
}
