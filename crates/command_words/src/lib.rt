//! The words that the program is given: its commands.
#![tactic(auto)]

mod check_words;
mod command;
mod linked_words;
mod names;

pub use check_words::CheckWords;
pub use command::{Command, RunWords, parse_words, word_at};
pub use linked_words::LinkedWords;
