//! The owner of a hardware command queue: it takes commands out of the ring, copies them into the hardware's own queue,
//! and completes them once the hardware has consumed them.
//!
//! 1. [`CommandQueue`] is the hardware: its memory, SMMU_CMDQ_PROD, SMMU_CMDQ_CONS, SMMU_GERROR and SMMU_GERRORN. Its
//!    clauses are all that is taken for granted of it.
//! 2. [`Owner`] keeps both indexes: it writes no slot that the hardware may read, shows what it wrote by one write of
//!    PROD, and believes CONS only between the two.
//! 3. [`Forwarder`] is the consumer of a ring. It takes commands before they are carried out, as many as the hardware's
//!    queue has slots, so that the ring's slots are free at once. What the hardware has consumed is settled, and nothing
//!    else: then the CMD_SYNCs among it are acknowledged.
#![tactic(auto)]

mod command_error;
mod command_queue;
mod fates;
mod flight;
mod forwarded;
mod forwarder;
mod forwarding;
mod hardware_form;
mod log;
mod owner;
mod queue_progress;
mod reading;
mod register_words;
mod remedy;
mod restart;
mod settling;
mod showing;
mod standing;
mod state;
mod supplied_queue;
mod tape;

pub use batch_outcomes::BatchOutcome;
pub use command_error::CommandError;
pub use command_queue::CommandQueue;
pub use forwarded::{Acknowledgement, Forwarded, Stopped};
pub use forwarder::Forwarder;
pub use owner::Owner;
pub use owner::registers::newly_consumed;
pub use queue_progress::Progress;
pub use reading::Reading;
pub use register_words::RegisterWords;
pub use remedy::{Remedy, RemedyFault};
pub use restart::Restart;
pub use showing::note_shown;
pub use standing::memory_stands;
pub use state::QueueState;
pub use supplied_queue::SuppliedQueue;
pub use tape::{Positions, Reads, Tape};
