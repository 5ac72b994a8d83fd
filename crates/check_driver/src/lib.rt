//! The program's words, what it answers to them, and the call that does it all.
#![tactic(auto)]

mod cache_file;
mod check_answer;
mod gen_answer;
mod inputs;
mod left_files;
mod linked_answer;
mod open_cache;
mod program;
mod proof_fault;
mod reading;
mod unit_answer;
mod verify_answer;

pub use answer_lines::NO_MEMORY;
pub use assembly_reports::report;
pub use command_words::{CheckWords, Command, RunWords, parse_words};
pub use program::run_words;
