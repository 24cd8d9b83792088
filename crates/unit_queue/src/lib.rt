//! A command queue whose hardware is a unit in software: it meets all that a driver takes for granted of hardware,
//! so nothing is proved of hardware that can't be.
#![tactic(auto)]

mod unit_queue;

pub use unit_queue::UnitQueue;
