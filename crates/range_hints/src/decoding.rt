//! Decodes two words into a command and its level hint.
ghost use Rattle.std.specs.Prelude.{◌≡◌, Some, Ok, Err, IfOk, IfErr};
ghost use Rattle.cmdcodec.specs.Legality.{first_ill};
ghost use Rattle.cmdcodec.specs.declared.command.Command.{Command};
ghost use Rattle.cmdcodec.specs.declared.ill.Ill.{Ill};
ghost use Rattle.range_hints.specs.declared.ttl.Ttl.{Ttl};
ghost use Rattle.range_hints.specs.Hints.{SpellsTtl, SpellsWithHint, has_ttl};

use crate::ttl::{Ttl, has_ttl};
use cmdcodec::{Command, Ill, Raw, decode};

/// Returns the command that the words spell, with its hint, or their first fault. A command without a place for a hint
/// has `Ttl::AnyLevel`.
pub fn decode_with_hint(raw: Raw) -> Result<(Command, Ttl), Ill>
    ensures found { IfOk result (λ hinted. SpellsWithHint raw hinted.0 hinted.1) }
    ensures only { (c : Command) (ttl : Ttl) → SpellsWithHint raw c ttl → result ≡ Ok (c, ttl) }
    ensures fault { (ill : Ill) → first_ill raw ≡ Some ill → result ≡ Err ill }
    ensures first { IfErr result (λ ill. first_ill raw ≡ Some ill) }
{
    match decode(raw) {
        Ok(command) => Ok((command, hint_of(&command, raw.hi))),
        Err(ill) => Err(ill),
    }
}

/// The hint in a command's high word.
fn hint_of(command: &Command, hi: u64) -> Ttl
    ensures { SpellsTtl (has_ttl command.now) hi result }
{
    if !has_ttl(command) {
        return Ttl::AnyLevel;
    }
    Ttl::new((hi >> 8) % 4).unwrap()
}
