//! What the owner of a queue knows of the hardware.
use crate::command_error::CommandError;

/// What the last look at the registers found.
#[derive(Clone, Copy, Debug, PartialEq, Eq)]
pub enum QueueState {
    /// No error, or nothing is in flight.
    Running,
    /// The hardware is stopped with this error, until that is acknowledged.
    Stopped(CommandError),
    /// SMMU_CMDQ_CONS had this value, which no working queue has. From then on nothing is believed.
    Broken(u32),
}
