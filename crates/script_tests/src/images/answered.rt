//! Calls that don't pass on the theorem of what they call, since it would be costly in each test.
use image::{Asked, Hint, image, image_with_hint};
use script::Status;
use std::alloc::Global;
use std::io::{Read, Write};

pub(crate) fn status_of<R: Read, W: Write>(
    alloc: Global,
    asked: &Asked,
    input: &mut R,
    output: &mut W,
) -> Status {
    image(alloc, asked, input, output)
}

pub(crate) fn status_and_hint<R: Read, W: Write>(
    alloc: Global,
    asked: &Asked,
    input: &mut R,
    output: &mut W,
) -> (Status, Option<Hint>) {
    image_with_hint(alloc, asked, input, output)
}
