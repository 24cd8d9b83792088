//! The answers to the lines of a sender.
ghost use Rattle.std.specs.Prelude.{◌≡◌, ◌++◌, OnOk, string_bytes};
ghost use Rattle.replay.specs.texts.SenderLines.{control_text, done_text, closed_text, published_text};

use qindex::Control;
use std::alloc::AllocError;
use std::fmt::Write;

/// Appends what the control word says.
pub(crate) fn say_control(control: &Control, reply: &mut String) -> Result<(), AllocError>
    ensures { OnOk result (string_bytes reply.new
        ≡ string_bytes reply.old ++ control_text control.now) }
{
    let (prod, cons) = (control.prod.get(), control.cons.get());
    if control.closed {
        write!(reply, "control {prod} {cons} closed\n")
    } else {
        write!(reply, "control {prod} {cons} open\n")
    }
}

/// Appends the number up to which a sender's batches are done.
pub(crate) fn say_done(sender: u32, number: u32, reply: &mut String) -> Result<(), AllocError>
    ensures { OnOk result (string_bytes reply.new
        ≡ string_bytes reply.old ++ done_text sender number) }
{
    write!(reply, "done {sender} up to {number}\n")
}

/// Appends that the ring is closed.
pub(crate) fn say_closed(reply: &mut String) -> Result<(), AllocError>
    ensures { OnOk result (string_bytes reply.new ≡ string_bytes reply.old ++ closed_text) }
{
    reply.push_str("closed\n")
}

/// Appends the answer for a batch that was published after it was only reserved.
pub(crate) fn say_published(
    sender: u32,
    number: Option<u32>,
    reply: &mut String,
) -> Result<(), AllocError>
    ensures { OnOk result (string_bytes reply.new
        ≡ string_bytes reply.old ++ published_text sender number) }
{
    match number {
        Some(number) => write!(reply, "published {sender} number {number}\n"),
        None => write!(reply, "published {sender} bare\n"),
    }
}
