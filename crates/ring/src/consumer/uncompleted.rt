//! Why no pending command was completed.
use cmdcodec::Ill;
use thiserror::Error;

/// Why a `PendingConsumer` completed nothing (this project's choice).
#[derive(Clone, Copy, Debug, PartialEq, Eq, Error)]
pub enum Uncompleted {
    /// The count is 0, or more than are pending.
    #[error("the count is 0 or more than are pending")]
    Count,
    /// One of several commands is illegal, the first of them by this fault.
    #[error("{0}")]
    Illegal(Ill),
}
