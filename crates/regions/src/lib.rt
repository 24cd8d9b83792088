//! What a command reaches, for whoever has to tell others: a device model its listeners, a hypervisor its guests.
#![tactic(auto)]

mod accesses;
mod address_spaces;
mod blocks;
mod pages;
mod region;
mod space;
mod substreams;

pub use accesses::Accesses;
pub use address_spaces::AddressSpaces;
pub use pages::{Addresses, Pages};
pub use region::Region;
pub use space::Space;
pub use substreams::Substreams;
