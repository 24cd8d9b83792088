//! Why a line ends the run.
use crate::request::Conduct;

/// Why a line ends the run.
#[derive(Clone, Copy, Debug, PartialEq, Eq)]
pub(crate) enum LogFault {
    /// Memory ran out.
    Memory,
    /// No walk of this number is known.
    NoWalk,
    /// An access of this number isn't over.
    AccessOpen,
    /// No access of this number has begun, or it is over.
    NoAccess,
    /// As many accesses are open as there is room for.
    TooManyAccesses,
    /// Consumption stopped at other words: those come next.
    OtherCommand,
    /// The model did something else than this, which is right.
    Wrong(Conduct),
}
