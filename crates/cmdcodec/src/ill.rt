//! The faults of illegal words.
ghost use Rattle.std.specs.Prelude.{◌≡◌};
ghost use Rattle.cmdcodec.specs.Labels.{label_of};

use thiserror::Error;

/// Why the words of a command are illegal. Such a command stops consumption with CERROR_ILL.
#[derive(Clone, Copy, Debug, PartialEq, Eq, Error)]
pub enum Ill {
    /// ILL1: the opcode isn't in the profile.
    #[error("ILL1: unknown opcode")]
    UnknownOpcode,
    /// ILL2: a prefetch, a CFGI command or an ATC_INV has bit 10 of lo set, for a Secure stream.
    #[error("ILL2: a Secure stream")]
    SecureStream,
    /// ILL3: a CMD_SYNC has the reserved completion signal.
    #[error("ILL3: a reserved completion signal")]
    ReservedSignal,
    /// ILL4: an ATC_INV spans more than `2^52` pages.
    #[error("ILL4: an oversized span")]
    OversizedSpan,
}

impl Ill {
    /// Returns its label, `ILL1` to `ILL4`.
    pub fn label(self) -> &'static str
        ensures { result.now ≡ label_of self }
    {
        match self {
            Ill::UnknownOpcode => "ILL1",
            Ill::SecureStream => "ILL2",
            Ill::ReservedSignal => "ILL3",
            Ill::OversizedSpan => "ILL4",
        }
    }
}
