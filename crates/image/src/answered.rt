//! How an input was answered.
use crate::hint::Hint;

/// How an input was answered.
#[derive(Clone, Copy, Debug, PartialEq, Eq)]
pub(crate) struct Answered {
    /// Whether by the view of a queue, and not by the one line of a fault.
    pub good: bool,
    pub hint: Option<Hint>,
}
