//! Reads cases: the rows of a test as data, in text files of one topic each.
//!
//! A file is UTF-8 text. An empty line and one that begins with `#` say nothing. A *case* begins with a line
//! `case NAME`, has lines of a keyword and its argument, and ends with a line `end`. What several cases share stands
//! before them in a *base*, which begins with `base NAME` and ends likewise. The last line is `cases N`, with the
//! number of cases, so that a file which was cut is told from a whole one.
//!
//! No function has a clause: what the cases say is compared with what the program answers, and nothing rests on it.
#![tactic(auto)]

mod case;
mod fault;
mod hex;
mod reader;
mod text;

pub use case::{Case, CaseFile, Field};
pub use fault::{CaseFault, CaseProblem};
pub use hex::bytes_of_hex;
pub use reader::read_cases;
pub use text::bytes_of_text;
