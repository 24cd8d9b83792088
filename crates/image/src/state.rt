//! The last line of a view, which says what holds the queue up.
ghost use Rattle.std.specs.Prelude.{◌≡◌, ◌*◌, ◌++◌, OnOk, length, string_bytes};
ghost use Rattle.cmdcodec.specs.Words.{decoding};
ghost use Rattle.qindex.specs.Positions.{size};
ghost use Rattle.image.specs.Queues.{IsShown};
ghost use Rattle.image.specs.States.{behind_text, cause_text, going_text, illegal_text, legal_prefix, or_none, running_text, state_text, stop_text, stopped_text, streams_text, unanswered_text};

use crate::error::CmdqErr;
use crate::lines::raw_at;
use crate::queue::{Queue, err_of};
use crate::streams::{is_sync, streams_of};
use cmdcodec::{Raw, decode};
use decode::say_command;
use std::alloc::{AllocError, Global};
use std::fmt::Write;

fn legal_prefix(raw: Raw) -> &'static str
    ensures { result.now ≡ legal_prefix (decoding raw) }
{
    match decode(raw) {
        Ok(_) => "illegal by the SMMU, legal here: ",
        Err(_) => "",
    }
}

/// Appends what is illegal in a command, or that nothing is here.
fn say_illegal(raw: Raw, text: &mut String) -> Result<(), AllocError>
    ensures { OnOk result (string_bytes text.new ≡ string_bytes text.old ++ illegal_text raw) }
{
    text.push_str(legal_prefix(raw))?;
    say_command(raw, text)?;
    Ok(())
}

fn or_none(streams: &str) -> &str
    ensures { result.now ≡ or_none streams.now }
{
    if streams.is_empty() { " none" } else { streams }
}

fn say_unanswered(streams: &str, text: &mut String) -> Result<(), AllocError>
    ensures { OnOk result (string_bytes text.new
        ≡ string_bytes text.old ++ unanswered_text streams.now) }
{
    let streams = or_none(streams);
    write!(
        text,
        "an endpoint did not answer an ATC_INV: streams{streams}"
    )
}

/// Appends the cause of this ERR.
fn say_cause(
    alloc: Global,
    image: &[u8],
    queue: &Queue,
    err: u32,
    text: &mut String,
) -> Result<(), AllocError>
    requires shown { IsShown queue.now }
    requires image { length image.now ≡ 16 * size queue.now.cons.geometry }
    ensures { OnOk result (string_bytes text.new
        ≡ string_bytes text.old ++ cause_text image.now queue.now err) }
{
    match err {
        1 => say_illegal(raw_at(image, queue.cons.place()), text),
        2 => text.push_str("abort: the queue's memory couldn't be read"),
        3 => say_unanswered(streams_of(alloc, image, queue)?.as_str(), text),
        _ => write!(text, "error {err}"),
    }
}

fn say_stop(slot: u32, text: &mut String) -> Result<(), AllocError>
    ensures { OnOk result (string_bytes text.new ≡ string_bytes text.old ++ stop_text slot) }
{
    write!(text, "stopped at slot {slot}: ")
}

fn say_stopped(
    alloc: Global,
    image: &[u8],
    queue: &Queue,
    text: &mut String,
) -> Result<(), AllocError>
    requires shown { IsShown queue.now }
    requires image { length image.now ≡ 16 * size queue.now.cons.geometry }
    ensures { OnOk result (string_bytes text.new
        ≡ string_bytes text.old ++ stopped_text image.now queue.now) }
{
    say_stop(queue.cons.place(), text)?;
    say_cause(alloc, image, queue, err_of(queue.register), text)?;
    text.push_str("\n")
}

fn say_behind(streams: &str, text: &mut String) -> Result<(), AllocError>
    ensures { OnOk result (string_bytes text.new
        ≡ string_bytes text.old ++ behind_text streams.now) }
{
    if streams.is_empty() {
        text.push_str("running\n")
    } else {
        write!(
            text,
            "running at a CMD_SYNC behind ATC_INVs of streams{streams}\n"
        )
    }
}

fn say_running(
    alloc: Global,
    image: &[u8],
    queue: &Queue,
    text: &mut String,
) -> Result<(), AllocError>
    requires shown { IsShown queue.now }
    requires image { length image.now ≡ 16 * size queue.now.cons.geometry }
    ensures { OnOk result (string_bytes text.new
        ≡ string_bytes text.old ++ running_text image.now queue.now) }
{
    if is_sync(raw_at(image, queue.cons.place())) {
        say_behind(streams_of(alloc, image, queue)?.as_str(), text)
    } else {
        text.push_str("running\n")
    }
}

fn say_going(
    alloc: Global,
    image: &[u8],
    queue: &Queue,
    text: &mut String,
) -> Result<(), AllocError>
    requires shown { IsShown queue.now }
    requires image { length image.now ≡ 16 * size queue.now.cons.geometry }
    ensures { OnOk result (string_bytes text.new
        ≡ string_bytes text.old ++ going_text image.now queue.now) }
{
    if queue.waiting() == 0 {
        text.push_str("empty\n")
    } else {
        say_running(alloc, image, queue, text)
    }
}

/// Appends the last line, if the error registers were given.
pub(crate) fn say_state(
    alloc: Global,
    image: &[u8],
    queue: &Queue,
    error: CmdqErr,
    text: &mut String,
) -> Result<(), AllocError>
    requires shown { IsShown queue.now }
    requires image { length image.now ≡ 16 * size queue.now.cons.geometry }
    ensures { OnOk result (string_bytes text.new
        ≡ string_bytes text.old ++ state_text image.now queue.now error) }
{
    match error {
        CmdqErr::NotGiven => Ok(()),
        CmdqErr::Active => say_stopped(alloc, image, queue, text),
        CmdqErr::NotActive => say_going(alloc, image, queue, text),
    }
}
