//! Why a queue isn't renewed.
ghost use Rattle.std.specs.Prelude.{◌≡◌};
ghost use Rattle.renewal.specs.FaultNames.{label_of};

use caches::CacheFault;
use ringcore::RingFault;
use thiserror::Error;

/// Why a queue isn't renewed: the first fault that applies.
#[derive(Clone, Copy, Debug, PartialEq, Eq, Error)]
pub enum RenewalFault {
    /// Q6: a command is reserved that isn't taken yet.
    #[error("Q6: a command waits to be taken")]
    Waiting,
    /// N1 to N4: the new ring isn't made.
    #[error(transparent)]
    Ring(RingFault),
    /// C1, C3 and C4: the new caches aren't made, or don't hold the entries.
    #[error(transparent)]
    Caches(CacheFault),
}

impl RenewalFault {
    /// Returns its label: `Q6`, or that of the fault within.
    pub fn label(self) -> &'static str
        ensures { result.now ≡ label_of self }
    {
        match self {
            RenewalFault::Waiting => "Q6",
            RenewalFault::Ring(fault) => fault.label(),
            RenewalFault::Caches(fault) => fault.label(),
        }
    }
}
