//! Lines that are each answered on their own, from any reader to any writer, and the words of a line.
#![tactic(auto)]

mod answering;
mod kind;
mod notes;
mod serving;
mod word;

pub use kind::AnswersLines;
pub use notes::Notes;
pub use serving::{answer_lines, answer_lines_with_notes, judged};
pub use word::next_word;
