//! The streams of the ATC_INVs that were taken since the last CMD_SYNC.
ghost use Rattle.std.specs.Prelude.{◌≡◌, ◌<◌, ◌*◌, ◌++◌, OnOk, IfOk, length, string_bytes};
ghost use Rattle.cmdcodec.specs.Words.{decoding};
ghost use Rattle.qindex.specs.Positions.{size};
ghost use Rattle.image.specs.Queues.{IsShown};
ghost use Rattle.image.specs.States.{command_stream, is_sync, is_sync_at, stream_text, streams_at, streams_text};

use crate::lines::{is_completed, raw_at};
use crate::queue::Queue;
use cmdcodec::{Command, Raw, decode};
use std::alloc::{AllocError, Global};
use std::fmt::Write;

/// Whether the words are a CMD_SYNC.
pub(crate) fn is_sync(raw: Raw) -> bool
    ensures { result ≡ is_sync (decoding raw) }
{
    match decode(raw) {
        Ok(Command::CmdSync { .. }) => true,
        _ => false,
    }
}

/// Whether a slot has a CMD_SYNC, or what the MSI of one that was taken left of it.
fn is_sync_at(image: &[u8], queue: &Queue, slot: u32) -> bool
    requires shown { IsShown queue.now }
    requires image { length image.now ≡ 16 * size queue.now.cons.geometry }
    requires slot { slot < size queue.now.cons.geometry }
    ensures { result ≡ is_sync_at image.now queue.now slot }
{
    is_completed(image, queue, slot) || is_sync(raw_at(image, slot))
}

/// Appends the stream of an ATC_INV behind a space, and nothing for any other command.
fn say_command_stream(command: &Command, text: &mut String) -> Result<(), AllocError>
    ensures { OnOk result (string_bytes text.new
        ≡ string_bytes text.old ++ command_stream command.now) }
{
    match *command {
        Command::AtcInv { sid, .. } => {
            let sid = sid.get();
            write!(text, " {sid}")
        }
        _ => Ok(()),
    }
}

/// The same of the words of a command.
fn say_stream(raw: Raw, text: &mut String) -> Result<(), AllocError>
    ensures { OnOk result (string_bytes text.new
        ≡ string_bytes text.old ++ stream_text (decoding raw)) }
{
    match decode(raw) {
        Ok(command) => say_command_stream(&command, text),
        Err(_) => Ok(()),
    }
}

/// Appends the stream of a slot. At a CMD_SYNC all streams so far are dropped.
fn add_slot(image: &[u8], queue: &Queue, slot: u32, text: &mut String) -> Result<(), AllocError>
    requires shown { IsShown queue.now }
    requires image { length image.now ≡ 16 * size queue.now.cons.geometry }
    requires slot { slot < size queue.now.cons.geometry }
    ensures { OnOk result (string_bytes text.new
        ≡ streams_at image.now queue.now slot (string_bytes text.old)) }
{
    if is_sync_at(image, queue, slot) {
        text.clear();
        Ok(())
    } else {
        say_stream(raw_at(image, slot), text)
    }
}

/// Returns the streams of the ATC_INVs that were taken since the last CMD_SYNC, each behind a space.
pub(crate) fn streams_of(alloc: Global, image: &[u8], queue: &Queue) -> Result<String, AllocError>
    requires shown { IsShown queue.now }
    requires image { length image.now ≡ 16 * size queue.now.cons.geometry }
    ensures { IfOk result (λ text. string_bytes text ≡ streams_text image.now queue.now) }
{
    let mut text = String::new(alloc);
    'slots: for steps in 0..queue.taken() {
        let slot = queue.prod.forward(steps).place();
        if let Err(e) = add_slot(image, queue, slot, &mut text) {
            return Err(e);
        }
    }
    Ok(text)
}
