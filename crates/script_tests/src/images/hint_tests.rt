//! What may help where an image is refused, or can't be right.
use crate::images::answered::status_and_hint;
use image::{Asked, Hint};
use script::Status;

#[test]
fn zeros(rt: HostRuntime) {
    let asked = Asked {
        log2: Some(2),
        prod: Some(1),
        cons: Some(0),
        all: false,
        hex: false,
        errors: None,
    };
    let mut input = [0u8; 64].as_slice();
    let mut output = Vec::new(rt.alloc());
    let answer = status_and_hint(rt.alloc(), &asked, &mut input, &mut output);
    assert_eq!(rt; answer, (Status::Good, Some(Hint::Zeros)));
    let text = format!(in rt.alloc(); "{}", Hint::Zeros).expect(&rt, "there is memory");
    assert_eq!(rt; text.as_str(), "the image is all zeros");
}
