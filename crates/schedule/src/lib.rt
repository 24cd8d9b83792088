//! Schedules: any interleaving of a ring's atomic steps, played by a script of lines.
#![tactic(auto)]

mod body;
mod kind;
mod parsing;
mod request;
mod serving;
mod telling;

pub use body::Body;
pub use parsing::parse;
pub use request::{Asked, Request};
pub use serving::{schedule, schedule_to_last_line, serve};
