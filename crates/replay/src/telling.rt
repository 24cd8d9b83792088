//! The texts of answers, each appended to a reply.
mod cache_lines;
mod entries;
mod refusals;
mod send_lines;
mod sender_lines;
mod unit_lines;

pub(crate) use cache_lines::{say_evicted, say_filled, say_found};
pub(crate) use refusals::{
    say_acknowledgement_refused, say_batch_refused, say_fill_refused, say_reserving_refused,
};
pub(crate) use send_lines::{say_opened, say_sent};
pub(crate) use sender_lines::{say_closed, say_control, say_done, say_published};
pub use unit_lines::say_step;
pub(crate) use unit_lines::{say_acknowledged, say_dump};
