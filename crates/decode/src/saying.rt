//! The meaning of a command's two words, appended to other text.
ghost use Rattle.std.specs.Prelude.{◌≡◌, ◌++◌, IfOk, OnOk, string_bytes};
ghost use Rattle.decode.specs.CommandText.{ill_text, words_text};

use cmdcodec::{Ill, Raw, decode};
use std::alloc::AllocError;
use std::fmt::Write;

/// Returns a fault as it is displayed.
fn displayed(ill: Ill) -> &'static str
    ensures { result.now ≡ ill_text ill }
{
    match ill {
        Ill::UnknownOpcode => "ILL1: unknown opcode",
        Ill::SecureStream => "ILL2: a Secure stream",
        Ill::ReservedSignal => "ILL3: a reserved completion signal",
        Ill::OversizedSpan => "ILL4: an oversized span",
    }
}

/// Appends what the words of a command mean, its text, or `illegal ` and the fault as it is displayed, and returns
/// whether they are legal.
#[tactic(auto, unfolding(crate::specs::CommandText::words_text))]
pub fn say_command(raw: Raw, text: &mut String) -> Result<bool, AllocError>
    ensures text { OnOk result (string_bytes text.new
        ≡ string_bytes text.old ++ (words_text raw).0) }
    ensures legal { IfOk result (λ is_legal. is_legal ≡ (words_text raw).1) }
{
    match decode(raw) {
        Ok(command) => {
            write!(text, "{command}")?;
            Ok(true)
        }
        Err(ill) => {
            let fault = displayed(ill);
            write!(text, "illegal {fault}")?;
            Ok(false)
        }
    }
}
