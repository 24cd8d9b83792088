//! The running ring: many senders and one consumer on one table of atomic words, without a lock.
//!
//! 1. A sender looks at the control word, which has both indexes and the closed bit, and reserves its whole
//!    batch by one exchange of that word (`Sender::reserve`). The exchange is won only if the word is the one
//!    that it looked at.
//! 2. It writes both halves of each command into its slots, which nobody else writes (`OpenReservation::write_next`).
//! 3. It hands them over by flipping their flags, with one exclusive or for each word of 64 flags
//!    (`OpenReservation::publish`).
//! 4. The consumer counts the flipped flags from the head on, reads those commands, and has them applied
//!    (`Consumer::take_run`).
//! 5. It advances past them by one exclusive or of the control word, and only then stores the number of each CMD_SYNC
//!    among them in its sender's completion cell, where the sender finds it (`PendingRun::complete_run`).
//!
//! A flag says 'here' with 1 on even laps of the ring and with 0 on odd ones. So nobody has to clear flags:
//! one that was flipped on a lap says 'not yet' on the next.
//!
//! The control word may have the same value again after two laps: a sender looks at an empty ring of two
//! slots, and before its exchange another fills the ring twice and all is taken. The exchange is won although
//! the look is old, and rightly: all that the look said, that the ring is open and has room, is true again,
//! since one word says all of it.
#![tactic(auto)]

mod consumer;
mod device;
mod keeper;
mod ring;
mod sender;
mod summary;
mod table;

pub use consumer::{
    Consumer, DeferringConsumer, Found, Pending, PendingConsumer, PendingRun, Taken, TakenRun,
    Uncompleted,
};
pub use device::Device;
pub use keeper::{IdleConsumer, IdleReservation, IdleSender, Keeper};
pub use ring::Ring;
pub use ringcore::{Outcome, RingFault};
pub use sender::{
    Bare, BareReservation, BatchKind, Cause, Closing, OpenReservation, Receipt, Refused,
    Reservation, Sender, UnboundReservation,
};
pub use summary::Summary;
pub use table::{growth_adds_up, run_is_one};
