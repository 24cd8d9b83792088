//! A guest's SMMUv3 commands, converted for the host's queue.
//!
//! A hypervisor with nested translation takes what a guest puts into its command queue, and hands the host's queue
//! commands that invalidate the guest's entries and nobody else's.
#![tactic(auto)]

mod configuration;
mod conversion;
mod ended;
mod fault;
mod guest;
mod laws;
mod limits;
mod reach;
mod stream_commands;
mod streams;
mod tlb_commands;

pub use configuration::Configuration;
pub use conversion::Converted;
pub use ended::{Ended, Stop};
pub use fault::AttachFault;
pub use guest::Guest;
pub use laws::{an_address_space_is_too_little, entries_are_of_one_guest};
pub use streams::{Attachment, HostStream};
