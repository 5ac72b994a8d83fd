//! What a case of the whole program gives and what it expects: files, read from the lines of the case or written from
//! a plan of an assembly, sinks, the calls of these that fail or lack memory, and the answer.
#![tactic(auto)]

mod arguments;
mod compared;
mod devices;
mod expected;
mod given;
#[cfg(test)]
mod line_rows;
mod plan;
mod wrong;

pub use arguments::{number_of, two_parts, word_of};
pub use compared::difference;
pub use devices::{CaseFiles, CaseSink};
pub use expected::Expected;
pub use given::Given;
pub use wrong::{Stop, Wrong, stop_at};
