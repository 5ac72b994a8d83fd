//! What `run` answers of a method: the line of its run's end, or why it does not start.
#![tactic(auto)]

mod answer;
mod arguments;
mod callee;
mod ends;
mod faults;
mod run;
mod values;

pub use answer::RunAnswer;
pub use faults::fault_line;
pub use run::run_method;
