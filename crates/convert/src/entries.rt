//! The stream table entries that a hypervisor writes for a guest.
ghost use Rattle.std.specs.Prelude.{◌≡◌, ◌++◌, OnOk, string_bytes};
ghost use Rattle.convert.specs.Answers.{commands_text, entry_words, later_texts};

use crate::host_commands::{say_host, say_later, say_nothing};
use guest_commands::Configuration;
use std::alloc::{AllocError, Global};

/// Appends CMD_CFGI_STE for each of these streams, behind another.
fn say_all_later(
    alloc: Global,
    streams: &mut Configuration<'_>,
    reply: &mut String,
) -> Result<(), AllocError>
    ensures { OnOk result (string_bytes reply.new
        ≡ string_bytes reply.old ++ later_texts (entry_words streams.old)) }
{
    'streams: while let Some(stream) = streams.next() {
        say_later(alloc, stream.host.invalidate_entry(), reply)?;
    }
    Ok(())
}

/// Appends CMD_CFGI_STE for each of these streams.
pub(crate) fn say_entries(
    alloc: Global,
    streams: &mut Configuration<'_>,
    reply: &mut String,
) -> Result<(), AllocError>
    ensures { OnOk result (string_bytes reply.new
        ≡ string_bytes reply.old ++ commands_text (entry_words streams.old)) }
{
    match streams.next() {
        None => say_nothing(reply),
        Some(first) => {
            say_host(alloc, first.host.invalidate_entry(), reply)?;
            say_all_later(alloc, streams, reply)
        }
    }
}
