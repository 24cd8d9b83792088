//! A guest's SMMUv3 commands on their way through the host's queue.
//!
//! A hypervisor may tell a guest that its CMD_SYNC is complete only when the host's commands for all of the guest's
//! commands before it are complete, and only a CMD_SYNC of the host behind them tells that.
#![tactic(auto)]

mod forwarded;
mod forwarding;
mod laws;

pub use forwarded::Forwarded;
pub use forwarding::Forwarding;
pub use laws::{carried_out_is_applied, no_older_entry_is_held};
