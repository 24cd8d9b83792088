//! The program over any reader and any writers, which smmuq runs on standard input and output.
#![tactic(auto)]

mod conversion;
mod explaining;
mod ranging;
mod reading;
mod running;
mod serving;
mod stressing;
mod telling;
mod troubles;
mod unclear;
mod watched;

pub use running::program;
pub use script::Status;
pub use serving::{decode_text, replay, schedule};
pub use telling::{tell_of_memory, tell_without_words};
pub use watched::Watched;
