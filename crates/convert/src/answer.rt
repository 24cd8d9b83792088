//! The answer to a guest's command.
ghost use Rattle.std.specs.Prelude.{◌≡◌, ◌++◌, IfOk, OnOk, string_bytes};
ghost use Rattle.convert.specs.Answers.{command_answer, goes_on_at, stop_text};

use crate::entries::say_entries;
use crate::host_commands::say_commands;
use cmdcodec::Raw;
use decode::say_command;
use guest_commands::{Ended, Guest, Stop};
use std::alloc::{AllocError, Global};

/// Appends what a command of the guest is that isn't converted.
fn say_stop(
    alloc: Global,
    guest: &Guest,
    raw: Raw,
    stop: Stop,
    reply: &mut String,
) -> Result<(), AllocError>
    ensures { OnOk result (string_bytes reply.new
        ≡ string_bytes reply.old ++ stop_text guest.now raw stop) }
{
    match stop {
        Stop::Sync => reply.push_str("sync"),
        Stop::Configure(command) => {
            reply.push_str("configure ")?;
            say_entries(alloc, &mut guest.configuration(&command), reply)
        }
        Stop::Illegal(_) => {
            say_command(raw, reply)?;
            Ok(())
        }
        Stop::Refused => reply.push_str("refused"),
    }
}

/// Whether the guest's queue goes on behind such a command.
fn goes_on_at(stop: &Stop) -> bool
    ensures { result ≡ goes_on_at stop.now }
{
    match stop {
        Stop::Sync | Stop::Configure(_) => true,
        Stop::Illegal(_) | Stop::Refused => false,
    }
}

/// Appends the host's commands for a command of the guest, or what it is instead, and returns whether the guest's queue
/// goes on behind it.
pub(crate) fn say_answer(
    alloc: Global,
    guest: &Guest,
    raw: Raw,
    reply: &mut String,
) -> Result<bool, AllocError>
    ensures text { OnOk result (string_bytes reply.new
        ≡ string_bytes reply.old ++ (command_answer guest.now raw).0) }
    ensures good { IfOk result (λ goes_on. goes_on ≡ (command_answer guest.now raw).1) }
{
    let converted = guest.convert_all(&[raw]);
    match converted.ended() {
        Ended::At(stop) => {
            say_stop(alloc, guest, raw, stop, reply)?;
            Ok(goes_on_at(&stop))
        }
        Ended::End | Ended::Full => {
            say_commands(alloc, converted.commands(), reply)?;
            Ok(true)
        }
    }
}
