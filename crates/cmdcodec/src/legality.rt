//! What makes two words illegal.
ghost use Rattle.std.specs.Prelude.{◌≡◌, ◌==◌, IfSome};
ghost use Rattle.cmdcodec.specs.Fields.{field};
ghost use Rattle.cmdcodec.specs.Opcodes.{opcode_of, opcode_named, number_of, is_sync};
ghost use Rattle.cmdcodec.specs.Legality.{first_ill};

use crate::bits::field;
use crate::ill::Ill;
use crate::opcode::Opcode;
use crate::raw::Raw;

/// The reserved value of `CS`.
const RESERVED_SIGNAL: u64 = 3;

/// The largest `Size` of an ATC_INV, which reaches all pages.
const ALL_PAGES: u64 = 52;

impl Raw {
    /// Returns the opcode, or `None` if it isn't in the profile.
    #[inline(always)]
    pub fn opcode(self) -> Option<Opcode>
        ensures named { result ≡ opcode_named (opcode_of self) }
        ensures number { IfSome result (λ opcode. number_of opcode ≡ opcode_of self) }
    {
        Opcode::new(field(self.lo, 7, 0))
    }

    /// Whether the opcode is CMD_SYNC's, even if the words are illegal.
    pub fn is_sync(self) -> bool
        ensures { result ≡ is_sync self }
    {
        field(self.lo, 7, 0) == Opcode::CmdSync as u64
    }
}

/// Whether `SSec` is set, which marks a command for a Secure stream.
fn is_secure(raw: Raw) -> bool
    ensures { result ≡ (field raw.lo 10 10 == 1) }
{
    field(raw.lo, 10, 10) == 1
}

/// Returns the first fault of the words, if any, without decoding them: the one that `decode` returns.
#[inline]
#[tactic(auto, unfolding(crate::specs::Opcodes::opcode_named))]
pub fn first_ill(raw: Raw) -> Option<Ill>
    ensures { result ≡ first_ill raw }
{
    let Some(opcode) = raw.opcode() else {
        return Some(Ill::UnknownOpcode);
    };
    match opcode {
        Opcode::PrefetchConfig
        | Opcode::PrefetchAddr
        | Opcode::CfgiSte
        | Opcode::CfgiSteRange
        | Opcode::CfgiCd
        | Opcode::CfgiCdAll
        | Opcode::AtcInv
            if is_secure(raw) => Some(Ill::SecureStream),
        Opcode::CmdSync if field(raw.lo, 13, 12) == RESERVED_SIGNAL => Some(Ill::ReservedSignal),
        Opcode::AtcInv if field(raw.hi, 5, 0) > ALL_PAGES => Some(Ill::OversizedSpan),
        _ => None,
    }
}
