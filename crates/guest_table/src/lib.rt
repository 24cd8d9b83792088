//! All guests of a host. No two of them have a VMID or a stream of the host in common, and what was taken from one is
//! given to another only after the host's SMMU has nothing of it cached.
#![tactic(auto)]

mod fault;
mod guests;
mod leaving;
mod table;
mod vmids;

pub use fault::TableFault;
pub use table::GuestTable;
