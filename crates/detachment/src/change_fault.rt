//! Why the commands for a change of stage 2 aren't made.
use thiserror::Error;

/// Why the commands for a change of stage 2 aren't made (own).
#[derive(Clone, Copy, Debug, PartialEq, Eq, Error)]
pub enum ChangeFault {
    /// The space is of stage 1 or of the hypervisor.
    #[error("it isn't stage 2 that changed")]
    OtherStage,
    /// The SMMU lacks stage 2, or the granule.
    #[error("the SMMU lacks stage 2 or the granule")]
    Unsupported,
    /// A byte is past the end of the space, 2^52.
    #[error("bytes past the end of stage 2")]
    PastEnd,
    /// No byte changed, so there is no command.
    #[error("no byte changed")]
    NoByte,
}
