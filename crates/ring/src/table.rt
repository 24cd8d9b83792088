//! The words that all threads share, the rule that they keep, and the atomic steps that seats take on them.
mod consumer_steps;
mod port;
mod rule;
mod steps;

pub use port::Port;
pub use rule::{Parameters, Participant, Participants, RingRule, growth_adds_up, run_is_one};
pub use steps::{
    Asks, Closes, Deals, Finds, Gathers, HasIntent, HasWho, Lends, Looks, Meets, StepFor,
};
