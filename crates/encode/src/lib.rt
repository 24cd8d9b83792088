//! Commands written as text, back to their words: what `decode` says, read again.
#![tactic(auto)]

mod answering;
mod fault;
mod field;
mod laws;
mod line;
mod making;
mod named;
mod serving;
mod value;

pub use fault::{EncodeFault, FieldFault};
pub use field::Field;
pub use laws::{order_plays_no_part, texts_are_read_back};
pub use line::encode_line;
pub use serving::{encode, encode_with_notes};
