//! What was expected of the line that ended the run of a script, as an engineer would say it.
#![tactic(auto)]

mod expected;
mod explaining;
mod fault;
mod form;
mod misread;
mod replay_forms;
mod schedule_forms;
mod stray;
mod words;

pub use explaining::{Script, explain};
