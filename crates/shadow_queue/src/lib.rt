//! A command queue whose memory and registers are somebody else's, as those of a driver in C: it keeps a copy of the memory,
//! answers each read of a register with words that it was given, and tells what is to be written where.
#![tactic(auto)]

mod forwarding;
mod laws;
mod messages;
mod newest;
mod placement;
mod seen_stop;
mod shadow_queue;

pub use forwarding::forward;
pub use laws::messages_of_before_tell_nothing;
pub use messages::poll_msi;
pub use placement::Placement;
pub use shadow_queue::ShadowQueue;
