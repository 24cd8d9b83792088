//! Replays: scripts that make a ring, fill the caches, send commands and take them.
#![tactic(auto)]

mod kind;
mod laws;
mod lines;
mod parsing;
mod request;
mod sender_fault;
mod serving;
mod telling;

pub use laws::memory_is_told_of;
pub use parsing::{next_tag, one_remedy};
pub use serving::{replay, replay_to_last_line, serve};
pub use telling::say_step;
