//! Commands kept as their two words.
ghost use Rattle.std.specs.Prelude.{◌≡◌, Some};
ghost use Rattle.std.specs.Option.{SomeIff};
ghost use Rattle.cmdcodec.specs.declared.raw.Raw.{Raw};
ghost use Rattle.cmdcodec.specs.Legality.{IsKept};

use crate::legality::first_ill;
use crate::opcode::Opcode;
use crate::raw::Raw;
use std::marker::Model;

/// The words of a command whose fields the profile says nothing about: a prefetch, a response to a page
/// request, or the end of a stall. They are legal, and kept bit for bit (own).
#[derive(Clone, Copy, Debug, PartialEq, Eq)]
pub struct KeptRaw {
    raw: Raw,
}

impl Model for KeptRaw {
    ghost Value = { Raw };

    ghost view = { λ kept. kept.raw };

    ghost invariant = { λ kept. IsKept kept.raw };

    ghost inverse = { λ words. record { raw = words } };
}

impl KeptRaw {
    /// Returns `raw` as a kept command if its opcode is a kept one and the words are legal, else `None`.
    pub fn new(raw: Raw) -> Option<KeptRaw>
        ensures { SomeIff result (IsKept raw) raw }
    {
        match (raw.opcode(), first_ill(raw)) {
            (
                Some(
                    Opcode::PrefetchConfig
                    | Opcode::PrefetchAddr
                    | Opcode::PriResp
                    | Opcode::Resume
                    | Opcode::StallTerm,
                ),
                None,
            ) => Some(KeptRaw { raw }),
            _ => None,
        }
    }

    /// Returns the words.
    pub fn get(self) -> Raw
        ensures value { result ≡ self }
        ensures kept { IsKept result }
    {
        self.raw
    }
}
