//! Why an invalidation is refused.
use thiserror::Error;

/// Why an invalidation is refused (own).
#[derive(Clone, Copy, Debug, PartialEq, Eq, Error)]
pub enum InvalidationFault {
    /// The SMMU lacks the stage or the granule; or for an endpoint ATS or the substreams.
    #[error("the SMMU lacks the stage, the granule or the endpoint's accesses")]
    Unsupported,
    /// A byte is past the end of the space: 2^64, or 2^52 at stage 2.
    #[error("bytes past the end of the address space")]
    PastEnd,
}
