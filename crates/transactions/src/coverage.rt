//! Which commands are invalidations, and which words cover a tag.
ghost use Rattle.std.specs.Prelude.{◌≡◌, IsTrue, ◌↔◌, None};
ghost use Rattle.cmdcodec.specs.Legality.{first_ill};
ghost use Rattle.caches.specs.Blocks.{IsBlock};
ghost use Rattle.transactions.specs.Coverage.{invalidates, WordsCover};

use caches::{Tag, covers};
use cmdcodec::{Opcode, Raw, decode};

/// Whether legal words are an invalidation: all are but CMD_SYNC and those whose fields nothing
/// here reads. They aren't decoded.
pub(crate) fn is_invalidation(raw: Raw) -> bool
    requires { first_ill raw ≡ None }
    ensures { result ≡ invalidates raw }
{
    !matches!(
        raw.opcode(),
        Some(
            Opcode::PrefetchConfig
                | Opcode::PrefetchAddr
                | Opcode::PriResp
                | Opcode::Resume
                | Opcode::StallTerm
                | Opcode::CmdSync
        )
    )
}

/// Whether the words spell a command that covers the tag.
pub(crate) fn words_cover(raw: Raw, tag: &Tag) -> bool
    requires { IsBlock tag.now }
    ensures { IsTrue result ↔ WordsCover raw tag.now }
{
    match decode(raw) {
        Ok(command) => covers(&command, tag),
        Err(_) => false,
    }
}
