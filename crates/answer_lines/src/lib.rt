//! The lines that the program writes, and what a call leaves that puts them to sinks.
#![tactic(auto)]

mod errors;
mod fault_kinds;
mod interrupt;
mod lines;
mod puts;
mod signatures;
mod text_lines;

pub use errors::{NO_MEMORY, UNWRITTEN, USAGE};
pub use fault_kinds::append_kind;
pub use interrupt::Interrupt;
pub use lines::{Counts, obligation_line, proved_text, summary_line, unit_line};
pub use puts::{
    answer_error, answer_misfit, answer_missing, answer_refused, answer_unread, put_cache_line,
    put_line, put_lines,
};
pub use signatures::append_signature;
pub use text_lines::append_lines;
