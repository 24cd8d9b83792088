//! How software acknowledges an error stop.
ghost use Rattle.std.specs.Prelude.{◌≡◌};
ghost use Rattle.engine.specs.Stops.{label_of};

use thiserror::Error;

/// What to do with the illegal command at which consumption stopped (own).
#[derive(Clone, Copy, Debug, PartialEq, Eq)]
pub enum Remedy {
    /// It comes next again, and is judged again.
    Retry,
    /// It comes next again, and is completed without effect.
    Replace,
}

/// Why an acknowledgement is refused: the first fault that applies. Nothing changes.
#[derive(Clone, Copy, Debug, PartialEq, Eq, Error)]
pub enum AckFault {
    /// G1: no error is active.
    #[error("G1: no error is active")]
    NoError,
    /// G2: CMDQ_ERR of the word isn't that of SMMU_GERROR.
    #[error("G2: CMDQ_ERR isn't that of SMMU_GERROR")]
    OtherBit,
}

impl AckFault {
    /// Returns its label, `G1` or `G2`.
    pub fn label(self) -> &'static str
        ensures { result.now ≡ label_of self }
    {
        match self {
            AckFault::NoError => "G1",
            AckFault::OtherBit => "G2",
        }
    }
}
