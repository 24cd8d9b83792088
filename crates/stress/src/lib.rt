//! The stress run: many senders and an engine at the same time on one ring, with the plan's totals under every
//! schedule.
#![tactic(auto)]

mod attempt;
mod ending;
mod engine_turns;
mod fault;
mod first_entries;
mod gate;
mod plan;
mod report;
mod room;
mod run;
mod telling;
mod worker;
mod workers;

pub use fault::StressFault;
pub use gate::{Gate, NoGate};
pub use plan::Plan;
pub use report::Report;
pub use run::run_all;
