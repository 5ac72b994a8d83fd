//! What is told of an assembly without an analysis: the answers to `list`, `il`, `run` and `refute`, the words of the
//! faults of files, and those of the reasons why methods are not analysed.
#![tactic(auto)]

mod fault_text;
mod il_answer;
mod list_answer;
mod method_world;
mod reason_text;
mod refute_answer;
mod run_answer;

pub use fault_text::{assembly_fault_text, unit_fault_text};
pub use il_answer::answer_il;
pub use list_answer::answer_list;
pub use reason_text::append_reason;
pub use refute_answer::answer_refute;
pub use run_answer::{RunGiven, answer_run};
