//! The lines that send.
ghost use Rattle.std.specs.Prelude.{◌≡◌, ◌<◌, IfOk, OnOk, Ok, string_bytes, true, false};
ghost use Rattle.script.specs.Standing.{Acts};
ghost use Rattle.simulator.specs.queue.Seated.{ring_in};
ghost use Rattle.simulator.specs.Standing.{Stands, HasOpen};
ghost use Rattle.replay.specs.effects.SendLines.{body_of, body_effect, send_effect};

use crate::request::{Content, Sending};
use crate::sender_fault::settled_fault;
use crate::telling::{say_batch_refused, say_opened, say_reserving_refused, say_sent};
use batch::{Batch, BatchBuffer, BatchFault, BorrowedBatch};
use script::say_fault;
use simulator::Simulator;
use std::alloc::AllocError;

/// Sends a batch and publishes it at once.
fn send_now(
    simulator: &mut Simulator,
    sending: &Sending,
    batch: BorrowedBatch<'_>,
    reply: &mut String,
) -> Result<(), AllocError>
    requires sender { sending.now.sender < (ring_in simulator.old.queue).senders }
    requires settled { HasOpen simulator.old sending.now.sender false }
    requires publishes { sending.now.publishes ≡ true }
    ensures { OnOk result (Acts Stands (λ wanting.
        body_effect sending.now (Ok batch.entry)) simulator.old simulator.new
        (string_bytes reply.old) (string_bytes reply.new) true) }
{
    match simulator.send(sending.sender, batch, sending.closes) {
        Ok(number) => say_sent(sending.sender, number, reply),
        Err(cause) => say_reserving_refused(cause, reply),
    }
}

/// Reserves a batch and leaves it open.
fn open(
    simulator: &mut Simulator,
    sending: &Sending,
    batch: Batch,
    reply: &mut String,
) -> Result<(), AllocError>
    requires sender { sending.now.sender < (ring_in simulator.old.queue).senders }
    requires settled { HasOpen simulator.old sending.now.sender false }
    requires stays { sending.now.publishes ≡ false }
    ensures { OnOk result (Acts Stands (λ wanting.
        body_effect sending.now (Ok batch)) simulator.old simulator.new (string_bytes reply.old)
        (string_bytes reply.new) true) }
{
    match simulator.reserve(sending.sender, batch, sending.closes) {
        Ok(reserved) => say_opened(sending.sender, reserved.number, reserved.first, reply),
        Err(cause) => say_reserving_refused(cause, reply),
    }
}

/// Makes the batch that the line describes in this buffer, or refuses it.
fn made_in<'b>(
    buffer: &'b mut BatchBuffer,
    content: &'b Content,
) -> Result<BorrowedBatch<'b>, BatchFault>
    ensures { result ≡ body_of content.now }
{
    match content {
        Content::Commands(body) => BorrowedBatch::new(body.as_slice()),
        Content::Range {
            vmid,
            asid,
            page,
            pages,
        } => buffer.range(*vmid, *asid, *page, *pages),
        Content::Detach { sid } => Ok(buffer.detach(*sid)),
    }
}

/// Makes the batch that the line describes, and sends it or only reserves it.
///
/// Stays a call: the buffer is a kilobyte on the stack, which a line that needs none need not clear.
#[inline(never)]
fn send_made(
    simulator: &mut Simulator,
    sending: &Sending,
    reply: &mut String,
) -> Result<(), AllocError>
    requires sender { sending.now.sender < (ring_in simulator.old.queue).senders }
    requires settled { HasOpen simulator.old sending.now.sender false }
    ensures { OnOk result (Acts Stands (λ wanting.
        body_effect sending.now (body_of sending.now.content)) simulator.old simulator.new
        (string_bytes reply.old) (string_bytes reply.new) true) }
{
    let mut buffer = BatchBuffer::new();
    match made_in(&mut buffer, &sending.content) {
        Ok(batch) if sending.publishes => send_now(simulator, sending, batch, reply),
        Ok(batch) => open(simulator, sending, Batch::from(batch), reply),
        Err(fault) => say_batch_refused(fault, reply),
    }
}

/// Sends what the line says, or only reserves it.
fn send_content(
    simulator: &mut Simulator,
    sending: &Sending,
    reply: &mut String,
) -> Result<(), AllocError>
    requires sender { sending.now.sender < (ring_in simulator.old.queue).senders }
    requires settled { HasOpen simulator.old sending.now.sender false }
    ensures { OnOk result (Acts Stands (λ wanting.
        body_effect sending.now (body_of sending.now.content)) simulator.old simulator.new
        (string_bytes reply.old) (string_bytes reply.new) true) }
{
    match &sending.content {
        // Needs no buffer: each command is copied only into its slot.
        Content::Commands(body) if sending.publishes => {
            match BorrowedBatch::new(body.as_slice()) {
                Ok(batch) => send_now(simulator, sending, batch, reply),
                Err(fault) => say_batch_refused(fault, reply),
            }
        }
        _ => send_made(simulator, sending, reply),
    }
}

pub(super) fn send(
    simulator: &mut Simulator,
    number: u64,
    sending: &Sending,
    reply: &mut String,
) -> Result<bool, AllocError>
    ensures { IfOk result (λ goes_on.
        Acts Stands (λ wanting.
        send_effect number sending.now) simulator.old simulator.new (string_bytes reply.old)
        (string_bytes reply.new) goes_on) }
{
    if let Some(fault) = settled_fault(simulator, sending.sender) {
        say_fault(number, fault.label(), reply)?;
        return Ok(false);
    }
    send_content(simulator, sending, reply)?;
    Ok(true)
}
