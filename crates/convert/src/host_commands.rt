//! The host's commands as text.
ghost use Rattle.std.specs.Prelude.{◌≡◌, ◌++◌, [], OnOk, string_bytes};
ghost use Rattle.hex.specs.Hex.{encode_lower};
ghost use Rattle.convert.specs.Answers.{commands_text, host_text, later_text, later_texts};

use cmdcodec::{Raw, to_bytes};
use decode::say_command;
use std::alloc::{AllocError, Global};

/// Appends bytes as digits.
fn say_digits(alloc: Global, bytes: &[u8], reply: &mut String) -> Result<(), AllocError>
    ensures { OnOk result (string_bytes reply.new
        ≡ string_bytes reply.old ++ encode_lower bytes.now) }
{
    let digits = hex::encode(alloc, bytes)?;
    reply.push_str(digits.as_str())
}

/// Appends a command of the host: its words as 32 digits, and its text.
pub(crate) fn say_host(alloc: Global, raw: Raw, reply: &mut String) -> Result<(), AllocError>
    ensures { OnOk result (string_bytes reply.new ≡ string_bytes reply.old ++ host_text raw) }
{
    say_digits(alloc, to_bytes(raw).as_slice(), reply)?;
    reply.push_str(" ")?;
    say_command(raw, reply)?;
    Ok(())
}

/// Appends a command of the host behind another.
pub(crate) fn say_later(alloc: Global, raw: Raw, reply: &mut String) -> Result<(), AllocError>
    ensures { OnOk result (string_bytes reply.new ≡ string_bytes reply.old ++ later_text raw) }
{
    reply.push_str("; ")?;
    say_host(alloc, raw, reply)
}

/// Appends that the host has no command for one of the guest's.
pub(crate) fn say_nothing(reply: &mut String) -> Result<(), AllocError>
    ensures { OnOk result (string_bytes reply.new ≡ string_bytes reply.old ++ commands_text []) }
{
    reply.push_str("nothing")
}

/// Appends commands of the host behind another.
fn say_all_later(alloc: Global, raws: &[Raw], reply: &mut String) -> Result<(), AllocError>
    ensures { OnOk result (string_bytes reply.new
        ≡ string_bytes reply.old ++ later_texts raws.now) }
{
    for raw in raws.iter() {
        say_later(alloc, *raw, reply)?;
    }
    Ok(())
}

/// Appends the host's commands.
pub(crate) fn say_commands(
    alloc: Global,
    raws: &[Raw],
    reply: &mut String,
) -> Result<(), AllocError>
    ensures { OnOk result (string_bytes reply.new
        ≡ string_bytes reply.old ++ commands_text raws.now) }
{
    match raws {
        [] => say_nothing(reply),
        [first, later @ ..] => {
            say_host(alloc, *first, reply)?;
            say_all_later(alloc, later, reply)
        }
    }
}
