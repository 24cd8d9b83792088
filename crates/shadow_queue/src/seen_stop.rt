//! Where the hardware stopped.
use hardware_queue::CommandError;

/// A stop that was seen, until it is acknowledged.
#[derive(Clone, Copy, Debug, PartialEq, Eq)]
pub struct SeenStop {
    /// How many commands were consumed before it.
    pub position: u64,
    pub error: CommandError,
}
