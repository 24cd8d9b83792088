//! The lines that show a queue.
ghost use Rattle.std.specs.Prelude.{◌≡◌, ◌<◌, ◌≤◌, ℕ, ◌+◌, ◌*◌, ◌++◌, OnOk, length, take, drop, string_bytes};
ghost use Rattle.cmdcodec.specs.Bytes.{raw_of};
ghost use Rattle.qindex.specs.Positions.{index_of, size, wrap_bit};
ghost use Rattle.image.specs.Queues.{IsShown};
ghost use Rattle.image.specs.Slots.{is_completed, is_overwritten, is_waiting};
ghost use Rattle.image.specs.Views.{completed_text, counts_text, heading, held_text, place_text, registers_text, slot_line, slot_text, standing, standing_text, waiting_line};

use crate::queue::{Queue, err_of};
use cmdcodec::{Raw, from_bytes};
use decode::say_command;
use qindex::Index;
use std::alloc::AllocError;
use std::fmt::Write;

/// Returns the two words of a slot.
pub(crate) fn raw_at(image: &[u8], slot: u32) -> Raw
    requires { 16 * slot + 16 ≤ length image.now }
    ensures { result ≡ raw_of (take 16 (drop (16 * slot) image.now)) }
{
    let start = 16 * slot as usize;
    match <&[u8; 16]>::try_from(&image[start..start + 16]) {
        Ok(bytes) => from_bytes(bytes),
        Err(_) => unreachable!(),
    }
}

/// Appends what a slot means as a command, and ends the line.
fn say_slot_text(image: &[u8], slot: u32, text: &mut String) -> Result<(), AllocError>
    requires { 16 * slot + 16 ≤ length image.now }
    ensures { OnOk result (string_bytes text.new
        ≡ string_bytes text.old ++ slot_text image.now slot) }
{
    say_command(raw_at(image, slot), text)?;
    text.push_str("\n")
}

fn say_registers(queue: &Queue, text: &mut String) -> Result<(), AllocError>
    ensures { OnOk result (string_bytes text.new
        ≡ string_bytes text.old ++ registers_text queue.now) }
{
    let (size, cons) = (queue.cons.geometry().size(), queue.register);
    let prod = queue.prod.get();
    write!(text, "size {size}\nprod 0x{prod:08x}\ncons 0x{cons:08x}\n")
}

fn say_counts(queue: &Queue, text: &mut String) -> Result<(), AllocError>
    requires { IsShown queue.now }
    ensures { OnOk result (string_bytes text.new ≡ string_bytes text.old ++ counts_text queue.now) }
{
    let (err, waiting) = (err_of(queue.register), queue.waiting());
    write!(text, "err {err}\nwaiting {waiting}\n")
}

/// Appends the first five lines.
pub(crate) fn say_heading(queue: &Queue, text: &mut String) -> Result<(), AllocError>
    requires { IsShown queue.now }
    ensures { OnOk result (string_bytes text.new ≡ string_bytes text.old ++ heading queue.now) }
{
    say_registers(queue, text)?;
    say_counts(queue, text)
}

fn say_place(place: u32, wrap: u8, text: &mut String) -> Result<(), AllocError>
    ensures { OnOk result (string_bytes text.new ≡ string_bytes text.old ++ place_text place wrap) }
{
    write!(text, "slot {place} wrap {wrap} ")
}

/// The wrap bit of the index of a position.
fn wrap_bit(index: Index) -> u8
    ensures { (geometry position : ℕ) → index ≡ index_of geometry position
        → result ≡ wrap_bit geometry position }
{
    u8::from(index.wrap())
}

/// Appends the line of the command `steps` positions after CONS.
pub(crate) fn say_waiting(
    image: &[u8],
    cons: Index,
    steps: u32,
    text: &mut String,
) -> Result<(), AllocError>
    requires image { length image.now ≡ 16 * size cons.geometry }
    requires steps { steps < size cons.geometry }
    ensures { OnOk result (string_bytes text.new
        ≡ string_bytes text.old ++ waiting_line image.now cons.geometry (cons.number + steps)) }
{
    let index = cons.forward(steps);
    let place = index.place();
    say_place(place, wrap_bit(index), text)?;
    say_slot_text(image, place, text)
}

fn is_waiting(queue: &Queue, slot: u32) -> bool
    requires shown { IsShown queue.now }
    requires slot { slot < size queue.now.cons.geometry }
    ensures { result ≡ is_waiting queue.now slot }
{
    let size = queue.cons.geometry().size();
    (slot + size - queue.cons.place()) % size < queue.waiting()
}

fn standing(waiting: bool) -> &'static str
    ensures { result.now ≡ standing waiting }
{
    if waiting { "waiting" } else { "taken" }
}

fn say_standing(slot: u32, waiting: bool, text: &mut String) -> Result<(), AllocError>
    ensures { OnOk result (string_bytes text.new
        ≡ string_bytes text.old ++ standing_text slot waiting) }
{
    let standing = standing(waiting);
    write!(text, "slot {slot} {standing} ")
}

/// Whether a slot of a queue of so many bytes has the words of a CMD_SYNC whose MSI of 0 was written there.
fn is_overwritten(bytes: u64, slot: u32, raw: Raw) -> bool
    requires { 0 < bytes }
    ensures { result ≡ is_overwritten bytes slot raw }
{
    raw.lo == 0 && raw.hi >= bytes && raw.hi < 1 << 52 && raw.hi % bytes == 16 * slot as u64
}

/// Whether a slot has a CMD_SYNC that was taken, and whose MSI told so in that slot.
pub(crate) fn is_completed(image: &[u8], queue: &Queue, slot: u32) -> bool
    requires shown { IsShown queue.now }
    requires image { length image.now ≡ 16 * size queue.now.cons.geometry }
    requires slot { slot < size queue.now.cons.geometry }
    ensures { result ≡ is_completed image.now queue.now slot }
{
    let bytes = 16 * queue.cons.geometry().size() as u64;
    !is_waiting(queue, slot) && is_overwritten(bytes, slot, raw_at(image, slot))
}

fn say_completed(text: &mut String) -> Result<(), AllocError>
    ensures { OnOk result (string_bytes text.new ≡ string_bytes text.old ++ completed_text) }
{
    text.push_str("CMD_SYNC completed by its MSI\n")
}

/// Appends what a slot holds, and ends the line.
fn say_held(image: &[u8], queue: &Queue, slot: u32, text: &mut String) -> Result<(), AllocError>
    requires shown { IsShown queue.now }
    requires image { length image.now ≡ 16 * size queue.now.cons.geometry }
    requires slot { slot < size queue.now.cons.geometry }
    ensures { OnOk result (string_bytes text.new
        ≡ string_bytes text.old ++ held_text image.now queue.now slot) }
{
    if is_completed(image, queue, slot) {
        say_completed(text)
    } else {
        say_slot_text(image, slot, text)
    }
}

/// Appends the line of a slot, whether it waits or not.
pub(crate) fn say_slot(
    image: &[u8],
    queue: &Queue,
    slot: u32,
    text: &mut String,
) -> Result<(), AllocError>
    requires shown { IsShown queue.now }
    requires image { length image.now ≡ 16 * size queue.now.cons.geometry }
    requires slot { slot < size queue.now.cons.geometry }
    ensures { OnOk result (string_bytes text.new
        ≡ string_bytes text.old ++ slot_line image.now queue.now slot) }
{
    say_standing(slot, is_waiting(queue, slot), text)?;
    say_held(image, queue, slot, text)
}
