//! Takes a stream away from its device: the commands for its configuration first, and the one for its endpoint only
//! when a CMD_SYNC has told that they are complete.
//!
//! An endpoint may translate again through the old configuration until its invalidation is complete, and only a
//! CMD_SYNC orders the two. So a stream passes through four values, each made from the one before it:
//!
//! 1. `Detachment::send` sends CMD_CFGI_STE, and CMD_CFGI_CD_ALL if the SMMU has stage 1: a `Configuring`.
//! 2. `Configuring::look` finds their CMD_SYNC complete: a `Configured` if SMMU and endpoint have ATS, and else a
//!    `Detached`, since nothing else is to be sent.
//! 3. `Configured::send` sends CMD_ATC_INV: a `Leaving`.
//! 4. `Leaving::look` finds its CMD_SYNC complete: a `Detached`.
//!
//! The same order beneath a nested stage 1: `Stage2Change::send` sends the commands for a change of stage 2, and only what
//! `Stage2Changing::look` gives once their CMD_SYNC is complete, a `Stage2Changed`, has the one for stage 1 behind it.
//!
//! The sender stays its owner's: between the steps it may send other batches.
#![tactic(auto)]

mod change;
mod change_fault;
mod changed;
mod changing;
mod configured;
mod configuring;
mod detached;
mod detachment;
mod laws;
mod leaving;
mod next;
mod unsent;

pub use change::Stage2Change;
pub use change_fault::ChangeFault;
pub use changed::Stage2Changed;
pub use changing::Stage2Changing;
pub use configured::Configured;
pub use configuring::Configuring;
pub use detached::Detached;
pub use detachment::Detachment;
pub use laws::{a_sender_goes_on, commands_cover_the_stream};
pub use leaving::Leaving;
pub use next::Next;
pub use unsent::Unsent;
