//! Remembers which batches lost commands: for each sender the last one that did.
//!
//! Who settles a ring's commands tells of each, in order, whether it was carried out, and of each CMD_SYNC whose it is. A
//! command isn't carried out if it is illegal, or if the hardware called it so and it was written over. Then a sender that
//! was told that its CMD_SYNC completed can learn whether its batch lost a command.
//!
//! Three facts are kept of each sender, so that nothing is searched and no memory is taken: how many of its batches are
//! settled, the last one that lost a command, and the one before that. Of older batches than that nothing is known.
#![tactic(auto)]

mod batch_outcome;
mod outcomes;
mod settled;
mod told;

pub use batch_outcome::BatchOutcome;
pub use outcomes::Outcomes;
pub use settled::Settled;
