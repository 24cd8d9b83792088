//! Why there is no report.
ghost use Rattle.std.specs.Prelude.{◌≡◌};
ghost use Rattle.stress.specs.ReportText.{fault_label};

use thiserror::Error;

/// Why there is no report.
#[derive(Clone, Copy, Debug, PartialEq, Eq, Drop, Error)]
pub enum StressFault {
    /// S1: out of memory.
    #[error("S1: out of memory")]
    NoMemory,
    /// S2: after the workers' end a batch was refused eight times, a drain came to no end, or one found the ring still
    /// open.
    #[error("S2: the run didn't come to its end")]
    Unfinished,
}

impl StressFault {
    /// Returns its label, `S1` or `S2`.
    pub fn label(self) -> &'static str
        ensures { result.now ≡ fault_label self }
    {
        match self {
            StressFault::NoMemory => "S1",
            StressFault::Unfinished => "S2",
        }
    }
}
