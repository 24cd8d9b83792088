//! Reading an image from the text of a hex dump.
ghost use Rattle.std.specs.Prelude.{◌≡◌, ◌<◌, ◌∷◌, Ok, length, IfErr, IfOk};
ghost use Rattle.hex_dump.specs.Dumps.{dumped};
ghost use Rattle.hex_dump.specs.declared.dumped.Dumped.TheVariants.{Slot};
ghost use Rattle.line_answers.specs.LineWords.{words_of};
ghost use Rattle.script.specs.Lines.{lines_of};
ghost use Rattle.image.specs.Dumps.{AddsLine, IsFault, dump_image, follows};

use cmdcodec::to_bytes;
use hex_dump::{DumpLine, Dumped, dump_line};
use memchr::memchr;
use std::alloc::{AllocError, Global};

/// Why a dump gives no image.
#[derive(Drop)]
pub(crate) enum DumpError {
    /// The line of this number, counted from 1, is the first that is no line of the dump, or whose address isn't 16 above
    /// that of the slot before it.
    BadLine(u64),
    /// Memory ran out.
    Memory(AllocError),
}

/// Returns the first line of a text, without its end, and the text after it.
fn next_line(text: &[u8]) -> (&[u8], &[u8])
    requires { 0 < length text.now }
    ensures lines { lines_of text.now ≡ result.0.now ∷ lines_of result.1.now }
    ensures shorter { length result.1.now < length text.now }
{
    match memchr(b'\n', text) {
        Some(end) => (&text[..end], &text[end + 1..]),
        None => (text, &text[text.len()..]),
    }
}

/// Whether a slot's address is 16 above that of the slot before it.
fn follows(last: Option<u64>, address: u64) -> bool
    ensures { result ≡ follows last address }
{
    match last {
        Some(last) => last.checked_add(16) == Some(address),
        None => true,
    }
}

/// Appends the bytes of a slot, and returns its address.
fn add_slot(
    number: u64,
    slot: DumpLine,
    last: Option<u64>,
    image: &mut Vec<u8>,
) -> Result<Option<u64>, DumpError>
    ensures { AddsLine number last (Slot slot) image.old.items image.new.items result }
{
    if !follows(last, slot.address) {
        return Err(DumpError::BadLine(number));
    }
    match image.extend_from_slice(&to_bytes(slot.raw)) {
        Ok(()) => Ok(Some(slot.address)),
        Err(e) => Err(DumpError::Memory(e)),
    }
}

/// Appends the bytes of a line, if it has any, and returns the address of the last slot.
fn add_line(
    number: u64,
    line: &[u8],
    last: Option<u64>,
    image: &mut Vec<u8>,
) -> Result<Option<u64>, DumpError>
    ensures { AddsLine number last (dumped (words_of line.now)) image.old.items image.new.items
        result }
{
    match dump_line(line) {
        Dumped::Nothing => Ok(last),
        Dumped::Slot(slot) => add_slot(number, slot, last, image),
        Dumped::Bad => Err(DumpError::BadLine(number)),
    }
}

/// Returns the image that the text of a dump has.
pub(crate) fn read_dump(alloc: Global, text: &[u8]) -> Result<Vec<u8>, DumpError>
    ensures image { IfOk result (λ image. dump_image text.now ≡ Ok image.items) }
    ensures error { IfErr result (λ e. IsFault e (dump_image text.now)) }
{
    let mut image = Vec::new(alloc);
    let mut last = None;
    let mut number = 1;
    let mut rest = text;
    'lines: while !rest.is_empty() {
        let (line, after) = next_line(rest);
        match add_line(number, line, last, &mut image) {
            Ok(address) => last = address,
            Err(e) => return Err(e),
        }
        number += 1;
        rest = after;
    }
    Ok(image)
}
