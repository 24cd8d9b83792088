//! Renews a queue: a new ring takes over from one whose commands are all taken.
//!
//! A ring's sender may reserve at most 2^32 - 1 batches, and is refused forever after. A queue that runs
//! longer is renewed now and then: when nothing waits, its ring is joined, and a new one begins with the same
//! entries.
//!
//! 1. All senders meet the engine, so that it knows a run that has all their steps, and it looks. If a command is
//!    reserved that isn't taken, the renewal is refused.
//! 2. A new ring and new caches are made, and each entry is put in again. If anything fails there, the old queue stays.
//! 3. Only then is the old queue joined. Nobody but the engine took a step since all met, so what it saw holds at the
//!    end: all that was ever reserved is taken, and applied to the caches.
#![tactic(auto)]

mod ending;
mod fault;
mod meeting;
mod queue;
mod renewing;
mod succession;

pub use fault::RenewalFault;
pub use meeting::sees_waiting;
pub use queue::{Queue, Refused, Renewed, Sizes};
pub use renewing::renew;
pub use succession::successor;
