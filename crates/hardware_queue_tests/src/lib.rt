//! Tests of the hardware queue with its owner and forwarder, of batch_outcomes (`outcomes`), shadow_queue and unit_queue.
#![tactic(auto)]

#[cfg(test)]
mod forwarder;
#[cfg(test)]
mod outcomes;
#[cfg(test)]
mod owner;
#[cfg(test)]
mod shadow;
#[cfg(test)]
mod threads;
#[cfg(test)]
mod unit;
#[cfg(test)]
mod words;
