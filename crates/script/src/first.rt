/// The result of a request before the ring is made.
#[derive(Drop)]
pub enum First<Kept> {
    /// Nothing.
    Nothing,
    /// A ring of `2^log2` slots, at most 2^19, and what is kept of it.
    Made { log2: u32, kept: Kept },
    /// A fault of this name, which ends the run.
    Fault(&'static str),
}
