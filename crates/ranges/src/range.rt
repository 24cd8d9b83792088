//! What is written for an invalidation.
ghost use Rattle.std.specs.Prelude.{◌≡◌, IfOk, string_bytes};
ghost use Rattle.ranges.specs.Answers.{range_text};

use crate::asked::Asked;
use crate::lines::say_lines;
use crate::reading::commands;
use std::alloc::{AllocError, Global};

/// Returns the lines of the commands that are asked for, or the one of a fault, and whether there is no fault. A line has
/// the words of a command with their level hint, as 32 digits, and its text.
pub fn range_text(alloc: Global, asked: &Asked<'_>) -> Result<(String, bool), AllocError>
    ensures { IfOk result (λ told. (string_bytes told.0 ≡ (range_text asked.now).0)
        × (told.1 ≡ (range_text asked.now).1)) }
{
    match commands(asked) {
        Ok(commands) => {
            let mut text = String::new(alloc);
            say_lines(alloc, commands, &mut text)?;
            Ok((text, true))
        }
        Err(fault) => Ok((String::from_str(alloc, fault.line())?, false)),
    }
}
