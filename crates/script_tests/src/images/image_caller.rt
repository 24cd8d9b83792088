//! The caller that image's README shows.
use image::{Asked, image};
use script::Status;

#[test]
fn empty_queue(rt: HostRuntime) {
    let asked = Asked {
        log2: Some(1),
        prod: Some(3),
        cons: Some(3),
        all: false,
        hex: false,
        errors: None,
    };
    let mut input = [0u8; 32].as_slice();
    let mut output = Vec::new(rt.alloc());
    let status = image(rt.alloc(), &asked, &mut input, &mut output);
    assert_eq!(rt; status, Status::Good);
}
