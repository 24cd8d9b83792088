//! The answers to the lines that send. A batch without a closing CMD_SYNC has no number.
ghost use Rattle.std.specs.Prelude.{◌≡◌, ◌++◌, OnOk, decimal, string_bytes};
ghost use Rattle.replay.specs.texts.SendLines.{number_text, sent_text, opened_text};

use itoa::Buffer;
use qindex::Index;
use std::alloc::AllocError;

/// Appends a number, by itoa: with `write!` a text of two numbers takes 1.7 times as many instructions.
fn say_number(number: u32, reply: &mut String) -> Result<(), AllocError>
    ensures { OnOk result (string_bytes reply.new ≡ string_bytes reply.old ++ decimal number) }
{
    let mut buffer = Buffer::new();
    reply.push_str(buffer.format(number))
}

/// Appends the number of a batch.
fn say_batch(number: Option<u32>, reply: &mut String) -> Result<(), AllocError>
    ensures { OnOk result (string_bytes reply.new ≡ string_bytes reply.old ++ number_text number) }
{
    match number {
        Some(number) => {
            reply.push_str(" number ")?;
            say_number(number, reply)
        }
        None => reply.push_str(" bare"),
    }
}

/// Appends the answer for a batch that was reserved and published.
pub(crate) fn say_sent(
    sender: u32,
    number: Option<u32>,
    reply: &mut String,
) -> Result<(), AllocError>
    ensures { OnOk result (string_bytes reply.new
        ≡ string_bytes reply.old ++ sent_text sender number) }
{
    reply.push_str("sent ")?;
    say_number(sender, reply)?;
    say_batch(number, reply)?;
    reply.push_str("\n")
}

/// Appends the answer for a batch that was only reserved, with the index of its first slot.
pub(crate) fn say_opened(
    sender: u32,
    number: Option<u32>,
    first: Index,
    reply: &mut String,
) -> Result<(), AllocError>
    ensures { OnOk result (string_bytes reply.new
        ≡ string_bytes reply.old ++ opened_text sender number first.number) }
{
    reply.push_str("opened ")?;
    say_number(sender, reply)?;
    say_batch(number, reply)?;
    reply.push_str(" first ")?;
    say_number(first.get(), reply)?;
    reply.push_str("\n")
}
