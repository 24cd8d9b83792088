//! A queue, shown in pieces.
ghost use Rattle.std.specs.Prelude.{◌≡◌, ◌*◌, ◌++◌, IfErr, OnErr, OnOk, length, string_bytes, false, true};
ghost use Rattle.qindex.specs.Positions.{size};
ghost use Rattle.script.specs.Errors.{is_endless, is_read, is_write};
ghost use Rattle.script.specs.Serving.{WritesFront};
ghost use Rattle.image.specs.Queues.{IsShown};
ghost use Rattle.image.specs.Showings.{Drained, Moved};
ghost use Rattle.image.specs.Views.{slot_lines, waiting_lines};

use crate::lines::{say_slot, say_waiting};
use crate::queue::Queue;
use script::{ServeError, write_whole};
use std::io::Write;

/// How many bytes of text are gathered before they are written.
const LONG_TEXT: usize = 65_536;

/// Writes the text and clears it, if it is longer than `LONG_TEXT`.
fn drain<W: Write>(output: &mut W, text: &mut String) -> Result<(), ServeError>
    ensures ok { OnOk result (Drained (W.contents output.old) (W.contents output.new)
        (string_bytes text.old) (string_bytes text.new)) }
    ensures err { OnErr result (WritesFront (W.contents output.old) (W.contents output.new)
        (string_bytes text.old)) }
    ensures error { IfErr result (λ e. is_write e ≡ true) }
{
    if text.len() > LONG_TEXT {
        write_whole(output, text.as_bytes())?;
        text.clear();
    }
    Ok(())
}

/// Appends the commands that wait, from CONS on, to the gathered text, and writes that when it is long.
pub(crate) fn show_waiting<W: Write>(
    image: &[u8],
    queue: &Queue,
    output: &mut W,
    text: &mut String,
) -> Result<(), ServeError>
    requires shown { IsShown queue.now }
    requires image { length image.now ≡ 16 * size queue.now.cons.geometry }
    ensures ok { OnOk result (Moved (W.contents output.old) (W.contents output.new)
        (string_bytes text.old) (string_bytes text.new) (waiting_lines image.now queue.now)) }
    ensures err { OnErr result (WritesFront (W.contents output.old) (W.contents output.new)
        (string_bytes text.old ++ waiting_lines image.now queue.now)) }
    ensures read { IfErr result (λ e. is_read e ≡ false) }
    ensures endless { IfErr result (λ e. is_endless e ≡ false) }
{
    'steps: for steps in 0..queue.waiting() {
        if let Err(e) = say_waiting(image, queue.cons, steps, text) {
            return Err(ServeError::Memory(e));
        }
        drain(output, text)?;
    }
    Ok(())
}

/// Appends all slots to the gathered text, and writes that when it is long.
pub(crate) fn show_slots<W: Write>(
    image: &[u8],
    queue: &Queue,
    output: &mut W,
    text: &mut String,
) -> Result<(), ServeError>
    requires shown { IsShown queue.now }
    requires image { length image.now ≡ 16 * size queue.now.cons.geometry }
    ensures ok { OnOk result (Moved (W.contents output.old) (W.contents output.new)
        (string_bytes text.old) (string_bytes text.new) (slot_lines image.now queue.now)) }
    ensures err { OnErr result (WritesFront (W.contents output.old) (W.contents output.new)
        (string_bytes text.old ++ slot_lines image.now queue.now)) }
    ensures read { IfErr result (λ e. is_read e ≡ false) }
    ensures endless { IfErr result (λ e. is_endless e ≡ false) }
{
    'slots: for slot in 0..queue.cons.geometry().size() {
        if let Err(e) = say_slot(image, queue, slot, text) {
            return Err(ServeError::Memory(e));
        }
        drain(output, text)?;
    }
    Ok(())
}
