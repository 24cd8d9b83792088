//! The lines of commands.
ghost use Rattle.std.specs.Prelude.{◌≡◌, ◌++◌, OnOk, codes, string_bytes};
ghost use Rattle.hex.specs.Hex.{encode_lower};
ghost use Rattle.cmdcodec.specs.Text.{text_of};
ghost use Rattle.invalidations.specs.Plans.{commands_of};
ghost use Rattle.ranges.specs.Lines.{IsNext, line_of, lines_of};

use cmdcodec::{Command, legal_words_spell_one_command, to_bytes};
use invalidations::Commands;
use range_hints::{Ttl, decode_with_hint, encode_with_hint};
use std::alloc::{AllocError, Global};
use std::fmt::Write;

/// Takes the next command, with its level hint.
fn next_hinted(commands: &mut Commands) -> Option<(Command, Ttl)>
    ensures next { IsNext commands.old result commands.new }
    ensures target { commands.new.request.target ≡ commands.old.request.target }
{
    legal_words_spell_one_command();
    match commands.next_words() {
        Some(raw) => match decode_with_hint(raw) {
            Ok(hinted) => Some(hinted),
            Err(_) => unreachable!(),
        },
        None => None,
    }
}

/// Appends bytes as digits.
fn say_digits(alloc: Global, bytes: &[u8], text: &mut String) -> Result<(), AllocError>
    ensures { OnOk result (string_bytes text.new
        ≡ string_bytes text.old ++ encode_lower bytes.now) }
{
    let digits = hex::encode(alloc, bytes)?;
    text.push_str(digits.as_str())
}

/// Appends a command's text behind a space, and ends the line.
fn say_text(command: &Command, text: &mut String) -> Result<(), AllocError>
    ensures { OnOk result (string_bytes text.new
        ≡ string_bytes text.old ++ (codes " " ++ text_of command.now ++ codes "\n")) }
{
    write!(text, " {command}\n")
}

/// Appends the line of a command: its words as 32 digits, and its text.
fn say_line(alloc: Global, command: &Command, ttl: Ttl, text: &mut String) -> Result<(), AllocError>
    ensures { OnOk result (string_bytes text.new
        ≡ string_bytes text.old ++ line_of command.now ttl) }
{
    let bytes = to_bytes(encode_with_hint(command, ttl));
    say_digits(alloc, bytes.as_slice(), text)?;
    say_text(command, text)
}

/// Appends the lines of all commands that are still to come.
pub(crate) fn say_lines(
    alloc: Global,
    mut commands: Commands,
    text: &mut String,
) -> Result<(), AllocError>
    ensures { OnOk result (string_bytes text.new
        ≡ string_bytes text.old ++ lines_of commands.request.target (commands_of commands)) }
{
    'commands: while let Some((command, ttl)) = next_hinted(&mut commands) {
        say_line(alloc, &command, ttl, text)?;
    }
    Ok(())
}
