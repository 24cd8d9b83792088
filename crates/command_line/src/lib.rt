//! The words of a command line, and what they ask for.
#![tactic(auto)]

mod convert_arguments;
mod help;
mod image_arguments;
mod misunderstood;
mod range_arguments;
mod stress_numbers;
mod subcommand;
mod words_arguments;

pub use convert_arguments::ConvertArguments;
pub use image_arguments::ImageArguments;
pub use misunderstood::Misunderstood;
pub use range_arguments::RangeArguments;
pub use stress_numbers::StressNumbers;
pub use subcommand::{Subcommand, understand};
pub use words_arguments::WordsArguments;
