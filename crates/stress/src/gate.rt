//! What a run tells its caller on the way.
use ring::Receipt;

/// Called by all workers of a run, each on its own thread (own).
pub trait Gate {
    /// Called before the first try of a batch. Batches are counted from 1.
    fn before(&self, sender: u32, batch: u32);

    /// Called after a batch was sent, with its receipt if it has one, or once the turns are used up.
    fn after(&self, sender: u32, batch: u32, receipt: Option<&Receipt>);

    /// Called before a turn of the engine. Turns are counted from 1.
    fn turn(&self, turn: u32);
}

/// A gate that does nothing.
pub struct NoGate;

impl Gate for NoGate {
    fn before(&self, _: u32, _: u32) {}

    fn after(&self, _: u32, _: u32, _: Option<&Receipt>) {}

    fn turn(&self, _: u32) {}
}
